// The marks of a question in a row that a caller lends.
ghost use Rattle.std.specs.Prelude.{◌≡◌};
ghost use Rattle.marks.specs.Fronts.{marks_of};
ghost use Rattle.marks.specs.Row.{row_reply, row_after};

use crate::front::Front;
use plan::refusal::Refusal;

// The count and nine marks: a row of so many numbers has room for any answer.
const ROOM: usize = 19;

impl Front {
    // Writes the count of marks and two numbers a mark, the arrival and the boats; the rest of the row stays. The
    // answer is the count. A row without room for nine marks is refused, however few there are.
    pub fn write(&self, out: &mut [u64]) -> Result<u64, Refusal>
        ensures reply { result ≡ row_reply (marks_of self.now) out.old }
        ensures row { out.new ≡ row_after (marks_of self.now) out.old }
    {
        if out.len() < ROOM {
            return Err(Refusal::ShortRow(out.len() as u64));
        }
        let marks = self.marks();
        let count = marks.len() as u64;
        out[0] = count;
        // By place: of a row that `chunks_exact_mut` lends a proof knows its length afterwards and nothing of its numbers.
        for (i, mark) in marks.iter().enumerate() {
            out[1 + 2 * i] = mark.arrival;
            out[2 + 2 * i] = mark.boats;
        }
        Ok(count)
    }
}
