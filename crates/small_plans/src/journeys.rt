// A journey by its legs, and the order in which journeys are named.
ghost use Rattle.std.specs.Prelude.{◌≡◌, IfOk};
ghost use Rattle.small_plans.specs.Words.{names_words};

use crate::small::{Leg, Question, Spot};
use crate::steps::Step;
use std::alloc::{AllocError, Global};
use std::cmp::Reverse;

#[derive(Clone, Drop)]
pub struct Journey {
    pub legs: Vec<Leg>,
    pub boats: u64,
    // One stays aboard on it.
    pub stays: bool,
}

// Of two legs the one with the smaller rank is named first: the later leaving, then the smaller run, then the smaller
// number.
fn rank(leg: &Leg) -> (Reverse<u64>, u64, u64) {
    (Reverse(leg.leaves), leg.run, leg.number)
}

impl Journey {
    pub(crate) fn on_foot(heap: Global) -> Journey {
        Journey {
            legs: Vec::new(heap),
            boats: 0,
            stays: false,
        }
    }

    // One leg more.
    pub(crate) fn add(&mut self, leg: Leg, step: Step) -> Result<(), AllocError> {
        self.legs.push(leg)?;
        match step {
            Step::Stay => self.stays = true,
            Step::Board => self.boats = self.boats.saturating_add(1),
        }
        Ok(())
    }

    // The same journey as another, in the memory that it has already.
    pub(crate) fn become_like(&mut self, other: &Journey) -> Result<(), AllocError> {
        self.legs.clear();
        self.legs.extend_from_slice(&other.legs)?;
        self.boats = other.boats;
        self.stays = other.stays;
        Ok(())
    }

    // Where one is who has ridden its legs for a question.
    pub(crate) fn end(&self, question: Question) -> Spot {
        match self.legs.last() {
            Some(leg) => leg.end(),
            None => question.start(),
        }
    }

    // Leg by leg from the last; what has no more legs comes first.
    pub(crate) fn is_named_before(&self, other: &Journey) -> bool {
        let from_the_last = self.legs.iter().rev().map(rank);
        from_the_last.lt(other.legs.iter().rev().map(rank))
    }

    // How many legs it has, and the run and the number of each: docs/FORMAT.md, "A question and its answer in memory".
    pub fn words(&self, heap: Global) -> Result<Vec<u64>, AllocError>
        ensures { IfOk result (λ v. v.items ≡ names_words self.now.legs.items) }
    {
        let legs = self.legs.len() as u64;
        let mut words = vec![in heap; legs]?;
        for leg in &self.legs {
            words.extend_from_slice(&[leg.run, leg.number])?;
        }
        Ok(words)
    }
}
