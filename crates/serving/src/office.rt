// An office: a plan that was checked, and the same plan laid out for questions.
ghost use Rattle.std.specs.Prelude.{◌≡◌, true, is_ok};
ghost use Rattle.plan.specs.Check.{plan_checked};
ghost use Rattle.plan.specs.Words.{plan_in};
ghost use Rattle.serving.specs.Kept.{Lays};
ghost use Rattle.std.proofs.Props.{props};

use crate::index::Index;
use plan::bounds::{MOST_LEGS, MOST_PIERS, MOST_WALKS};

mod asking;
mod looking;
mod opening;
mod reading;
mod serving;
mod updating;

// Three counts, and then what a change takes at each pier, six numbers a leg and three a walk.
const MOST_WORDS: usize = 3 + MOST_PIERS + 6 * MOST_LEGS + 3 * MOST_WALKS;

#[derive(Drop)]
pub struct Office {
    // The plan as numbers, from the first on. There is room for the largest plan that the check takes, so that no update
    // wants memory: it could fail half done.
    words: [u64; MOST_WORDS],
    // The same plan laid out.
    index: Index,
    ghost usable: { is_ok (plan_checked words) ≡ true },
    ghost kept: { Lays (plan_in words) index } by { Prim.hlevel props },
}
