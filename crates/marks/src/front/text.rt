// The marks of a question on a line.
ghost use Rattle.std.specs.Prelude.{Some};
ghost use Rattle.marks.specs.Fronts.{marks_of};
ghost use Rattle.marks.specs.Texts.{marks_text};

use crate::front::Front;
use std::fmt;

impl fmt::Display for Front {
    ghost output = { λ front. Some (marks_text (marks_of front)) };

    fn fmt<W: fmt::Write>(&self, f: &mut fmt::Formatter<W>) -> fmt::Result {
        let Some((first, rest)) = self.marks().split_first() else {
            return Ok(());
        };
        write!(f, "{first}")?;
        for mark in rest {
            write!(f, " {mark}")?;
        }
        Ok(())
    }
}
