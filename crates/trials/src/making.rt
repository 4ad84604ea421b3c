// The plans and the questions of these trials: numbers are drawn only for what is kept.
ghost use Rattle.std.specs.Prelude.{◌≤◌};

use small_plans::chance::Chance;
use small_plans::making::{
    anywhere, before_leg, make_legs, question_from, random_changes, random_walk, walks_after,
};
use small_plans::small::{Leg, Question, SmallPlan};
use std::alloc::{AllocError, Global};

// Puts the leg at a random place among the others, since the answer must not depend on their order. The first has only
// one place, and nothing is drawn for it.
fn add_leg(chance: &mut Chance, legs: &mut Vec<Leg>, leg: Leg) -> Result<(), AllocError> {
    let place = match legs.len() {
        0 => 0,
        count => chance.up_to(count as u64) as usize,
    };
    legs.insert(place, leg)?;
    Ok(())
}

// A plan of two to four piers, three to seven legs and at most four walks.
pub fn make_plan(heap: Global, chance: &mut Chance) -> Result<SmallPlan, AllocError> {
    let last_pier = 1 + chance.up_to(2);
    let changes = random_changes(heap, chance, last_pier as usize + 1)?;
    let before = random_walk(chance, last_pier);
    let count = chance.up_to(4);
    let walks = walks_after(heap, chance, last_pier, before, count)?;
    let mut plan = SmallPlan {
        changes,
        legs: Vec::new(heap),
        walks,
    };
    make_legs(chance, &mut plan, add_leg)?;
    Ok(plan)
}

// A question from where a leg goes from, a little before it leaves; sometimes from anywhere at any time.
pub fn make_question(chance: &mut Chance, plan: &SmallPlan) -> Question
    ensures { result.most ≤ 8 }
{
    let last_pier = plan.last_pier();
    let place = chance.up_to(plan.legs.len() as u64) as usize;
    let start = match plan.legs.get(place) {
        Some(leg) => before_leg(chance, *leg),
        None => anywhere(chance, last_pier),
    };
    question_from(chance, last_pier, start)
}
