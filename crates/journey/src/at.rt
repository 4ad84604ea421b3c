// Being at a pier at a time.
ghost use Rattle.std.specs.Prelude.{◌≡◌, ◌+◌, ◌^◌, ◌<◌};

use plan::leg::Leg;

#[derive(Clone, Copy, PartialEq, Eq)]
pub struct At {
    pub pier: u64,
    // In minutes.
    pub time: u64,
}

impl At {
    // Where and when the leg leaves.
    pub fn departure_of(leg: Leg) -> At
        ensures { result ≡ record { pier = leg.from; time = leg.leaves } }
    {
        At {
            pier: leg.from,
            time: leg.leaves,
        }
    }

    // Where and when the leg comes.
    pub fn arrival_of(leg: Leg) -> At
        ensures { result ≡ record { pier = leg.to; time = leg.comes } }
    {
        At {
            pier: leg.to,
            time: leg.comes,
        }
    }

    // At the same pier, so many minutes later.
    pub fn after(self, minutes: u64) -> At
        requires { self.time + minutes < 2 ^ 64 }
        ensures { result ≡ record { pier = self.pier; time = self.time + minutes } }
    {
        At {
            pier: self.pier,
            time: self.time + minutes,
        }
    }
}
