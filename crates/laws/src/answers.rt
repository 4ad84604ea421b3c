// The laws of answers.
ghost use Rattle.marks.specs.declared.mark.Mark.{Mark};
ghost use Rattle.marks.specs.MarkLaws.{NoWorseOrder, OneAnswer, FewerBoats};
ghost use Rattle.laws.specs.AnswerLaws.{OneAnswerOfPlans, FewerBoatsOfPlans, AlwaysAnswered, ComputedAnswers};
ghost use Rattle.laws.specs.AnswerExamples.{TableStands};

// Any relation that says which marks are reached.
pub trait ReachedMarks {
    ghost reached: { Mark → Type 0 };
}

// To be no worse is a partial order of marks.
pub fn no_worse_is_an_order() -> u8
    ensures { NoWorseOrder }
{
    0
}

// A question has at most one answer, whatever is reached.
pub fn one_answer_of_any<T: ReachedMarks>() -> u8
    ensures { OneAnswer T.ReachedMarks.reached }
{
    0
}

// In every plan a question has at most one answer.
pub fn one_answer_of_plans() -> u8
    ensures { OneAnswerOfPlans }
{
    0
}

// With fewer boats the answer is the beginning of the one with more, whatever is reached.
pub fn fewer_boats_of_any<T: ReachedMarks>() -> u8
    ensures { FewerBoats T.ReachedMarks.reached }
{
    0
}

// In every plan the answer with fewer boats is the beginning of the one with more.
pub fn fewer_boats_of_plans() -> u8
    ensures { FewerBoatsOfPlans }
{
    0
}

// Every question has an answer, in a plan of any size.
pub fn there_is_always_an_answer() -> u8
    ensures { AlwaysAnswered }
{
    0
}

// The answer that is computed leg by leg and boat by boat is the answer.
pub fn the_computed_one_answers() -> u8
    ensures { ComputedAnswers }
{
    0
}

// The answers in a plan of four piers.
pub fn table_stands() -> u8
    ensures { TableStands }
{
    0
}
