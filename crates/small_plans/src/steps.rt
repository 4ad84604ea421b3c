// What one can do between two legs, and before the first: straight from docs/RULES.md.
use crate::small::{Leg, Question, SmallPlan, Spot};

// How a leg is ridden.
#[derive(Clone, Copy)]
pub(crate) enum Step {
    Stay,
    Board,
}

fn can_stay(a: Leg, b: Leg) -> bool {
    b.run == a.run
        && b.number == a.number.saturating_add(1)
        && b.from == a.to
        && a.comes <= b.leaves
}

fn can_change(plan: &SmallPlan, a: Leg, b: Leg) -> bool {
    plan.changes.get(a.to as usize).is_some_and(|change| b.from == a.to
        && a.comes.saturating_add(*change) <= b.leaves)
}

// Who is there can walk to where the leg goes from before it leaves.
fn can_walk(plan: &SmallPlan, start: Spot, leg: Leg) -> bool {
    plan.walks.iter().any(|walk| {
        walk.from == start.pier
            && walk.to == leg.from
            && start.time.saturating_add(walk.takes) <= leg.leaves
    })
}

// How leg b follows leg a, if it does. Where one can stay it is a stay, whatever else is possible.
pub(crate) fn step_between(plan: &SmallPlan, a: Leg, b: Leg) -> Option<Step> {
    if can_stay(a, b) {
        Some(Step::Stay)
    } else if can_change(plan, a, b) || can_walk(plan, a.end(), b) {
        Some(Step::Board)
    } else {
        None
    }
}

// The first leg is boarded, if the journey of a question can begin with it.
pub(crate) fn first_step(plan: &SmallPlan, question: Question, leg: Leg) -> Option<Step> {
    let is_there = leg.from == question.from && question.time <= leg.leaves;
    (is_there || can_walk(plan, question.start(), leg)).then_some(Step::Board)
}
