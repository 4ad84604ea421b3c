// The plans and the questions of these trials: as many numbers are always drawn as the largest plan needs.
ghost use Rattle.std.specs.Prelude.{◌≤◌};

use small_plans::chance::Chance;
use small_plans::making::{
    anywhere, before_leg, make_legs, question_from, random_changes, random_walk, walks_after,
};
use small_plans::small::{Leg, Question, SmallPlan};
use std::alloc::{AllocError, Global};

const MOST_PIERS: usize = 4;

const MOST_WALKS: u64 = 4;

// Puts the leg at a random place among the others, since the answer must not depend on their order: the one that stands
// there goes behind the last.
fn add_leg(chance: &mut Chance, legs: &mut Vec<Leg>, leg: Leg) -> Result<(), AllocError> {
    let last = legs.len();
    let place = chance.up_to(last as u64) as usize;
    legs.push(leg)?;
    legs.swap(place, last);
    Ok(())
}

// A plan of two to four piers, three to seven legs and at most four walks.
pub fn make_plan(heap: Global, chance: &mut Chance) -> Result<SmallPlan, AllocError> {
    let last_pier = 1 + chance.up_to(2);
    let mut changes = random_changes(heap, chance, MOST_PIERS)?;
    changes.truncate(last_pier as usize + 1);
    let count = chance.up_to(MOST_WALKS);
    let before = random_walk(chance, last_pier);
    let mut walks = walks_after(heap, chance, last_pier, before, MOST_WALKS)?;
    walks.truncate(count as usize);
    let mut plan = SmallPlan {
        changes,
        legs: Vec::new(heap),
        walks,
    };
    make_legs(chance, &mut plan, add_leg)?;
    Ok(plan)
}

// A question from where a leg goes from, a little before it leaves; sometimes from anywhere at any time.
pub fn make_question(chance: &mut Chance, plan: &SmallPlan) -> Question
    ensures { result.most ≤ 8 }
{
    let last_pier = plan.last_pier();
    let place = chance.up_to(plan.legs.len() as u64) as usize;
    let somewhere = anywhere(chance, last_pier);
    let start = match plan.legs.get(place) {
        Some(leg) => before_leg(chance, *leg),
        None => somewhere,
    };
    question_from(chance, last_pier, start)
}
