// A leg: one hop of a boat's run, by value.
ghost use Rattle.std.specs.Prelude.{◌≡◌, ◌≤◌, length};
ghost use Rattle.plan.specs.Legs.{name, runs, same_name, leg_within};
ghost use Rattle.plan.specs.Words.{leg_of, leg_words};

use super::bounds::{NAME_BOUND, TIME_BOUND};
use super::name::LegName;

#[derive(Clone, Copy, PartialEq, Eq)]
pub struct Leg {
    // The run that the leg belongs to, and its number in it.
    pub run: u64,
    pub number: u64,
    // The piers that it joins.
    pub from: u64,
    pub to: u64,
    // When it leaves the one and when it comes to the other, in minutes.
    pub leaves: u64,
    pub comes: u64,
}

impl Leg {
    // The leg that six numbers of a plan write down, read where they lie in the lent memory.
    pub fn read(part: &[u64]) -> Leg
        requires { 6 ≤ length part.now }
        ensures { result ≡ leg_of part.now }
    {
        Leg {
            run: part[0],
            number: part[1],
            from: part[2],
            to: part[3],
            leaves: part[4],
            comes: part[5],
        }
    }

    // Writes the six numbers down.
    pub fn write(self, part: &mut [u64])
        requires { length part.old ≡ 6 }
        ensures { part.new ≡ leg_words self }
    {
        part.copy_from_slice(&[
            self.run,
            self.number,
            self.from,
            self.to,
            self.leaves,
            self.comes,
        ]);
    }

    // A leg runs if it comes no earlier than it leaves; nobody can use another.
    pub fn runs(self) -> bool
        ensures { result ≡ runs self }
    {
        self.leaves <= self.comes
    }

    // What names the leg.
    pub fn name(self) -> LegName
        ensures { result ≡ name self }
    {
        LegName {
            run: self.run,
            number: self.number,
        }
    }

    // The same run and number.
    pub fn is_named_as(self, other: Leg) -> bool
        ensures { result ≡ same_name self other }
    {
        self.name() == other.name()
    }

    // Every number of the leg is within its bounds, in a plan of so many piers.
    pub fn is_within(self, piers: u64) -> bool
        ensures { result ≡ leg_within piers self }
    {
        self.run < NAME_BOUND
            && self.number < NAME_BOUND
            && self.from < piers
            && self.to < piers
            && self.leaves < TIME_BOUND
            && self.comes < TIME_BOUND
    }
}
