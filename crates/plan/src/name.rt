// What names a leg: its run, and its number in it.
ghost use Rattle.std.specs.Prelude.{Some};
ghost use Rattle.plan.specs.Names.{name_text};

use std::fmt;

#[derive(Clone, Copy, PartialEq, Eq, Debug)]
pub struct LegName {
    pub run: u64,
    pub number: u64,
}

impl fmt::Display for LegName {
    ghost output = { λ n. Some (name_text n) };

    fn fmt<W: fmt::Write>(&self, f: &mut fmt::Formatter<W>) -> fmt::Result {
        let run = self.run;
        let number = self.number;
        write!(f, "{run}.{number}")
    }
}
