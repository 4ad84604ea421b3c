// How the check of a journey is told.
ghost use Rattle.std.specs.Prelude.{Some};
ghost use Rattle.inspect.specs.Told.{checked_text};

use journey::checking::Broken;
use marks::mark::Mark;
use std::fmt;

// The mark that a journey reaches, `45/2`, or where it breaks, `broken at 1`.
#[derive(Clone, Copy)]
pub struct Verdict(pub Result<Mark, Broken>);

impl fmt::Display for Verdict {
    ghost output = { λ verdict. Some (checked_text verdict.0) };

    fn fmt<W: fmt::Write>(&self, f: &mut fmt::Formatter<W>) -> fmt::Result {
        match self.0 {
            Ok(mark) => write!(f, "{mark}"),
            Err(broken) => write!(f, "{broken}"),
        }
    }
}
