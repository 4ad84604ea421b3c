// Numbers that look random, always the same from the same seed.
ghost use Rattle.std.specs.Prelude.{◌≤◌, IsTrue};

#[derive(Drop)]
pub struct Chance {
    state: u64,
}

impl Chance {
    pub fn from_seed(seed: u64) -> Chance {
        Chance { state: seed }
    }

    // A number from 0 to the most. The low bits of a linear congruence hardly vary, so the high ones are used.
    pub fn up_to(&mut self, most: u64) -> u64
        ensures { result ≤ most }
    {
        self.state = self
            .state
            .wrapping_mul(6364136223846793005)
            .wrapping_add(1442695040888963407);
        (self.state >> 33) % most.saturating_add(1)
    }

    // True once in so many times, on average.
    pub fn once_in(&mut self, times: u64) -> bool
        ensures always { times ≤ 1 → IsTrue result }
    {
        self.up_to(times.saturating_sub(1)) == 0
    }
}
