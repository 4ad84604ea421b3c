// A small plan and a question about it. docs/RULES.md says what the words mean.
ghost use Rattle.std.specs.Prelude.{◌≡◌, ◌-◌, ◌<◌, ◌≤◌, ◌↔◌, IsTrue, IfOk, [], ◌∷◌, vec_len};
ghost use Rattle.small_plans.specs.Words.{leg_words, walk_words, plan_words};
ghost use Rattle.small_plans.specs.Marks.{Falls};

use std::alloc::{AllocError, Global};

#[derive(Clone, Copy, PartialEq, Eq, Debug)]
pub struct Leg {
    pub run: u64,
    pub number: u64,
    pub from: u64,
    pub to: u64,
    pub leaves: u64,
    pub comes: u64,
}

impl Leg {
    pub(crate) fn runs(self) -> bool
        ensures { IsTrue result ↔ (self.leaves ≤ self.comes) }
    {
        self.leaves <= self.comes
    }

    // Where one is who has ridden it.
    pub(crate) fn end(self) -> Spot
        ensures pier { result.pier ≡ self.to }
        ensures time { result.time ≡ self.comes }
    {
        Spot {
            pier: self.to,
            time: self.comes,
        }
    }

    fn words(self) -> [u64; 6]
        ensures { result ≡ leg_words self }
    {
        [
            self.run,
            self.number,
            self.from,
            self.to,
            self.leaves,
            self.comes,
        ]
    }
}

#[derive(Clone, Copy, PartialEq, Eq, Debug)]
pub struct Walk {
    pub from: u64,
    pub to: u64,
    pub takes: u64,
}

impl Walk {
    fn words(self) -> [u64; 3]
        ensures { result ≡ walk_words self }
    {
        [self.from, self.to, self.takes]
    }
}

#[derive(Drop)]
pub struct SmallPlan {
    // The change of each pier.
    pub changes: Vec<u64>,
    pub legs: Vec<Leg>,
    pub walks: Vec<Walk>,
}

impl SmallPlan {
    pub fn last_pier(&self) -> u64
        ensures { result ≡ vec_len self.now.changes - 1 }
    {
        (self.changes.len() as u64).saturating_sub(1)
    }

    // The plan as a row of numbers: docs/FORMAT.md, "The plan in memory".
    pub fn words(&self, heap: Global) -> Result<Vec<u64>, AllocError>
        ensures { IfOk result (λ v. v.items ≡ plan_words self.now) }
    {
        let piers = self.changes.len() as u64;
        let legs = self.legs.len() as u64;
        let walks = self.walks.len() as u64;
        let mut words = vec![in heap; piers, legs, walks]?;
        words.extend_from_slice(&self.changes)?;
        for leg in &self.legs {
            words.extend_from_slice(&leg.words())?;
        }
        for walk in &self.walks {
            words.extend_from_slice(&walk.words())?;
        }
        Ok(words)
    }
}

// Where somebody is, and since when.
#[derive(Clone, Copy, PartialEq, Eq, Debug)]
pub struct Spot {
    pub pier: u64,
    pub time: u64,
}

#[derive(Clone, Copy, PartialEq, Eq, Debug)]
pub struct Question {
    pub from: u64,
    pub time: u64,
    pub to: u64,
    pub most: u64,
}

impl Question {
    // Where one sets out.
    pub(crate) fn start(self) -> Spot
        ensures pier { result.pier ≡ self.from }
        ensures time { result.time ≡ self.time }
    {
        Spot {
            pier: self.from,
            time: self.time,
        }
    }

    // The question as four numbers: docs/FORMAT.md, "A question and its answer in memory".
    pub fn words(self) -> [u64; 4]
        ensures { result ≡ self.from ∷ self.time ∷ self.to ∷ self.most ∷ [] }
    {
        [self.from, self.time, self.to, self.most]
    }
}

// When one is there, and with how many boats.
#[derive(Clone, Copy, PartialEq, Eq, Debug)]
pub struct Mark {
    pub arrival: u64,
    pub boats: u64,
}

impl Mark {
    // More boats buy an earlier arrival: both are worth telling.
    pub(crate) fn falls_to(self, next: Mark) -> bool
        ensures { IsTrue result ↔ Falls self next }
    {
        self.boats < next.boats && next.arrival < self.arrival
    }
}
