// Trials: the proved answers and itineraries beside those that trying all journeys gives, on random small plans.
#![tactic(auto)]

mod making;
mod tally;

use anyhow::anyhow;
use itinerary::journey_for::journey;
use making::{make_plan, make_question};
use marks::mark::Mark;
use rounds::answer::answer;
use small_plans::chance::Chance;
use small_plans::small::{Question, SmallPlan};
use small_plans::trying::{Reached, Tried, try_journeys};
use std::alloc::{AllocError, Global};
use tally::Tally;

const SEED: u64 = 1862;

const PLANS: u64 = 40000;

const QUESTIONS_OF_A_PLAN: u64 = 5;

// A row of zeros holds these numbers now, and no others. What lies behind them in the row of an itinerary is long: its
// bits are put together, many numbers at a time, where a look for the first that is not 0 takes one after the other.
fn holds(row: &[u64], numbers: &[u64]) -> bool {
    let Some(rest) = row.strip_prefix(numbers) else {
        return false;
    };
    rest.iter().fold(0, |bits, number| bits | *number) == 0
}

// The proved answer has the marks that were tried, and no others.
fn answer_agrees(
    heap: Global,
    words: &[u64],
    asked: &[u64],
    tried: &Tried,
) -> Result<bool, AllocError> {
    let mut row = [0u64; 19];
    let Ok(_) = answer(words, asked, &mut row) else {
        return Ok(false);
    };
    Ok(holds(&row, &tried.words(heap)?))
}

// The proved itinerary for a mark is the journey that comes first of those that reach it.
fn itinerary_agrees(
    heap: Global,
    words: &[u64],
    asked: &[u64],
    reached: &Reached,
) -> Result<bool, AllocError> {
    let mut row = [0u64; 2049];
    let mark = Mark {
        arrival: reached.arrival,
        boats: reached.itinerary.boats,
    };
    let Ok(_) = journey(words, asked, mark, &mut row) else {
        return Ok(false);
    };
    Ok(holds(&row, &reached.itinerary.words(heap)?))
}

// One question, answered both ways, and the itinerary for each mark.
fn compare(
    heap: Global,
    plan: &SmallPlan,
    words: &[u64],
    question: Question,
    tally: &mut Tally,
) -> Result<(), AllocError> {
    let asked = question.words();
    let tried = try_journeys(heap, plan, question)?;
    tally.count_question(&tried);
    tally.count_answer(answer_agrees(heap, words, &asked, &tried)?);
    for reached in &tried.reached {
        tally.count_mark(reached);
        tally.count_itinerary(itinerary_agrees(heap, words, &asked, reached)?);
    }
    Ok(())
}

fn compare_all(heap: Global) -> Result<Tally, AllocError> {
    let mut chance = Chance::from_seed(SEED);
    let mut tally = Tally::default();
    for _ in 0..PLANS {
        let plan = make_plan(heap, &mut chance)?;
        tally.count_plan();
        let words = plan.words(heap)?;
        for _ in 0..QUESTIONS_OF_A_PLAN {
            let question = make_question(&mut chance, &plan);
            compare(heap, &plan, &words, question, &mut tally)?;
        }
    }
    Ok(tally)
}

fn main(rt: HostRuntime) -> anyhow::Result<()> {
    let tally = compare_all(rt.alloc())?;
    rt.println(tally)?;
    if tally.differs() {
        return Err(anyhow!("what is proved differs from trying all journeys"));
    }
    Ok(())
}
