// Trials: the proved answers beside the answers that trying all journeys gives, on random small plans.
#![tactic(auto)]

mod making;
mod tally;

use anyhow::anyhow;
use making::{make_plan, make_question};
use rounds::answer::answer;
use small_plans::chance::Chance;
use small_plans::small::{Mark, Question, SmallPlan};
use small_plans::trying::{Tried, try_journeys};
use tally::Tally;

const SEED: u64 = 1862;

const PLANS: u64 = 40000;

const QUESTIONS_OF_A_PLAN: u64 = 5;

// What the proved answer wrote into a row for its marks, the arrival and the boats of each, or none where it refuses.
fn answered<'a>(
    words: &[u64],
    question: Question,
    row: &'a mut [u64; 19],
) -> Option<&'a [[u64; 2]]> {
    let count = answer(words, &question.words(), row).ok()?;
    let (pairs, _) = row[1..].as_chunks::<2>();
    pairs.get(..count as usize)
}

fn mark_of(pair: &[u64; 2]) -> Mark {
    let [arrival, boats] = *pair;
    Mark { arrival, boats }
}

// The marks told are those that were tried, and no others. They are compared where they lie: most agree.
fn agree(told: &[[u64; 2]], tried: &Tried) -> bool {
    let marks = tried.reached.iter().map(|reached| reached.mark());
    told.iter().map(mark_of).eq(marks)
}

fn print_difference(
    rt: &HostRuntime,
    words: &[u64],
    question: Question,
    told: Option<&[[u64; 2]]>,
    tried: &Tried,
) -> anyhow::Result<()> {
    let told: Option<Vec<Mark>> = match told {
        Some(pairs) => Some(pairs.iter().map(mark_of).collect(rt.alloc())?),
        None => None,
    };
    let marks = tried.marks(rt.alloc())?;
    println!(rt; "plan: {words:?}")?;
    println!(rt; "question: {question:?}")?;
    println!(rt; "answer: {told:?}")?;
    println!(rt; "trying all journeys: {marks:?}")?;
    Ok(())
}

// One question, answered both ways.
fn compare(
    rt: &HostRuntime,
    plan: &SmallPlan,
    words: &[u64],
    question: Question,
    tally: &mut Tally,
) -> anyhow::Result<()> {
    let tried = try_journeys(rt.alloc(), plan, question)?;
    tally.count_question(&tried);
    let mut row = [0u64; 19];
    let told = answered(words, question, &mut row);
    if !told.is_some_and(|told| agree(told, &tried)) {
        tally.count_difference();
        print_difference(rt, words, question, told, &tried)?;
    }
    Ok(())
}

fn compare_all(rt: &HostRuntime) -> anyhow::Result<Tally> {
    let mut chance = Chance::from_seed(SEED);
    let mut tally = Tally::default();
    for _ in 0..PLANS {
        let plan = make_plan(rt.alloc(), &mut chance)?;
        tally.count_plan();
        let words = plan.words(rt.alloc())?;
        for _ in 0..QUESTIONS_OF_A_PLAN {
            let question = make_question(&mut chance, &plan);
            compare(rt, &plan, &words, question, &mut tally)?;
        }
    }
    Ok(tally)
}

fn main(rt: HostRuntime) -> anyhow::Result<()> {
    let tally = compare_all(&rt)?;
    rt.println(tally)?;
    if tally.differs() {
        return Err(anyhow!("answers differ"));
    }
    Ok(())
}
