// A walk from a pier to a pier, one way, by value.
ghost use Rattle.std.specs.Prelude.{◌≡◌, ◌≤◌, length};
ghost use Rattle.plan.specs.Legs.{walk_within};
ghost use Rattle.plan.specs.Words.{walk_of};

use super::bounds::TIME_BOUND;

#[derive(Clone, Copy, PartialEq, Eq)]
pub struct Walk {
    pub from: u64,
    pub to: u64,
    // How many minutes it takes.
    pub takes: u64,
}

impl Walk {
    // The walk that three numbers of a plan write down, read where they lie in the lent memory.
    pub fn read(part: &[u64]) -> Walk
        requires { 3 ≤ length part.now }
        ensures { result ≡ walk_of part.now }
    {
        Walk {
            from: part[0],
            to: part[1],
            takes: part[2],
        }
    }

    // Every number of the walk is within its bounds, in a plan of so many piers.
    pub fn is_within(self, piers: u64) -> bool
        ensures { result ≡ walk_within piers self }
    {
        self.from < piers && self.to < piers && self.takes < TIME_BOUND
    }
}
