// The laws of journeys.
ghost use Rattle.laws.specs.JourneyLaws.{LaterNoBetter, MoreLegs, InTwo, NotBefore, NoLegTwice, OneVerdict};
ghost use Rattle.laws.specs.JourneyExamples.{ExamplesStand};

// Who sets out later is no better off.
pub fn later_is_no_better() -> u8
    ensures { LaterNoBetter }
{
    0
}

// With more legs every journey is still there.
pub fn more_legs_keep_journeys() -> u8
    ensures { MoreLegs }
{
    0
}

// Two journeys with a change between them are one, and their boats add up unless one stays aboard.
pub fn two_journeys_are_one() -> u8
    ensures { InTwo }
{
    0
}

// Nobody is there before setting out.
pub fn nobody_is_there_before() -> u8
    ensures { NotBefore }
{
    0
}

// No journey needs a leg twice.
pub fn no_leg_is_needed_twice() -> u8
    ensures { NoLegTwice }
{
    0
}

// A journey told by the names of its legs has one verdict.
pub fn one_verdict_is_right() -> u8
    ensures { OneVerdict }
{
    0
}

// A small plan on which each rule shows.
pub fn examples_stand() -> u8
    ensures { ExamplesStand }
{
    0
}
