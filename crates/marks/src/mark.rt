// A mark: when one is there, and with how many boats.
ghost use Rattle.std.specs.Prelude.{◌≡◌, Some};
ghost use Rattle.marks.specs.Marks.{no_worse, falls};
ghost use Rattle.marks.specs.Texts.{mark_text};

use std::fmt;

#[derive(Clone, Copy, Debug, PartialEq, Eq)]
pub struct Mark {
    // When one is there, in minutes.
    pub arrival: u64,
    pub boats: u64,
}

impl Mark {
    // There no later, with no more boats: whoever has this mark does without the other.
    pub fn no_worse(self, other: Mark) -> bool
        ensures { result ≡ no_worse self other }
    {
        self.arrival <= other.arrival && self.boats <= other.boats
    }

    // More boats buy an earlier arrival: the other may come next in an answer.
    pub fn falls_to(self, next: Mark) -> bool
        ensures { result ≡ falls self next }
    {
        self.boats < next.boats && next.arrival < self.arrival
    }
}

impl fmt::Display for Mark {
    ghost output = { λ m. Some (mark_text m) };

    fn fmt<W: fmt::Write>(&self, f: &mut fmt::Formatter<W>) -> fmt::Result {
        let arrival = self.arrival;
        let boats = self.boats;
        write!(f, "{arrival}/{boats}")
    }
}
