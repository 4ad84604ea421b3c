// The laws of days and of runs.
ghost use Rattle.laws.specs.RunLaws.{AnsweredEachDay, UsableAtEachMoment, RunsInTwo};

// After any updates every question has an answer, and only one.
pub fn each_day_has_its_answers() -> u8
    ensures { AnsweredEachDay }
{
    0
}

// At every moment of a run the plan may be used.
pub fn plans_stay_usable() -> u8
    ensures { UsableAtEachMoment }
{
    0
}

// What was done is done, whatever comes later.
pub fn what_was_done_is_done() -> u8
    ensures { RunsInTwo }
{
    0
}
