// A question in numbers: from, time, to, and the most boats.
ghost use Rattle.std.specs.Prelude.{◌≡◌};
ghost use Rattle.rounds.specs.Query.{query_checked};

use journey::question::Question;
use plan::bounds::{TIME_BOUND, below};
use plan::refusal::Refusal;

// A question, and how many boats its journeys may take.
#[derive(Clone, Copy)]
pub struct Query {
    pub question: Question,
    pub most: u8,
}

const MOST_BOATS: u64 = 8;

// The question that the numbers ask of a plan with so many piers, or the first of them that is wrong. Numbers behind the
// fourth are not looked at.
pub fn read_query(piers: usize, numbers: &[u64]) -> Result<Query, Refusal>
    ensures { result ≡ query_checked piers numbers.now }
{
    let [from, time, to, most, ..] = numbers else {
        return Err(Refusal::BadQuestion(numbers.len() as u64));
    };
    let Some(from) = below(*from, piers as u64) else {
        return Err(Refusal::BadQuestion(0));
    };
    let Some(time) = below(*time, TIME_BOUND) else {
        return Err(Refusal::BadQuestion(1));
    };
    let Some(to) = below(*to, piers as u64) else {
        return Err(Refusal::BadQuestion(2));
    };
    let Some(most) = below(*most, MOST_BOATS + 1) else {
        return Err(Refusal::BadQuestion(3));
    };
    Ok(Query {
        question: Question { from, time, to },
        most: most as u8,
    })
}
