// A question: from a pier at a time to a pier.
ghost use Rattle.std.specs.Prelude.{◌≡◌};

use crate::at::At;

#[derive(Clone, Copy, PartialEq, Eq)]
pub struct Question {
    pub from: u64,
    // When one sets out, in minutes.
    pub time: u64,
    pub to: u64,
}

impl Question {
    // Where and when one sets out.
    pub fn outset(self) -> At
        ensures { result ≡ record { pier = self.from; time = self.time } }
    {
        At {
            pier: self.from,
            time: self.time,
        }
    }
}
