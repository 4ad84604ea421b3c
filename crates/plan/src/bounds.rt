// How large the numbers of a plan may be, and how many piers, legs and walks it may have.
ghost use Rattle.std.specs.Prelude.{◌≡◌, if◌then◌else◌, Some, None, nat_lt};

// Every time is below this, and what a walk or a change takes.
pub const TIME_BOUND: u64 = 4294967296;

// Runs are below this, and numbers in a run.
pub const NAME_BOUND: u64 = 65536;

pub const MOST_PIERS: usize = 64;

pub const MOST_LEGS: usize = 1024;

pub const MOST_WALKS: usize = 256;

// The number, if it is below the bound.
pub fn below(n: u64, bound: u64) -> Option<u64>
    ensures { result ≡ (if nat_lt n bound then Some n else None) }
{
    (n < bound).then_some(n)
}
