// The laws of updates.
ghost use Rattle.laws.specs.UpdateLaws.{DelaysAdd, DelaysSwap, ExtraLeg, CancelledLeg};
ghost use Rattle.laws.specs.UpdateLaws.{StillAJourney, StillExact, ToldGoes};
ghost use Rattle.laws.specs.DayTable.{DayTableStands};
ghost use Rattle.laws.specs.DayExamples.{DayStands};

// Delays of one run from one number add up.
pub fn delays_add_up() -> u8
    ensures { DelaysAdd }
{
    0
}

// Any two delays may come in either order.
pub fn delays_come_in_any_order() -> u8
    ensures { DelaysSwap }
{
    0
}

// An extra leg makes nobody worse off.
pub fn an_extra_leg_keeps_journeys() -> u8
    ensures { ExtraLeg }
{
    0
}

// A cancelled leg makes nobody better off.
pub fn a_cancelled_leg_adds_no_journey() -> u8
    ensures { CancelledLeg }
{
    0
}

// What still goes is a journey of the plan as it is.
pub fn what_still_goes_is_a_journey() -> u8
    ensures { StillAJourney }
{
    0
}

// Names still go exactly where the legs that have them now are a journey.
pub fn only_journeys_still_go() -> u8
    ensures { StillExact }
{
    0
}

// An itinerary goes by the plan that it was told by.
pub fn what_was_told_goes() -> u8
    ensures { ToldGoes }
{
    0
}

// The answers on a day in the plan of four piers, after each update.
pub fn day_table_stands() -> u8
    ensures { DayTableStands }
{
    0
}

// What becomes of an itinerary on a day in the plan of four piers.
pub fn day_stands() -> u8
    ensures { DayStands }
{
    0
}
