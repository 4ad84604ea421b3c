// Keeping the marks of a question: none, one more at the end, and which are covered.
ghost use Rattle.std.specs.Prelude.{◌≡◌, ◌≤◌, [], length, nat_lt};
ghost use Rattle.marks.specs.Marks.{covered};
ghost use Rattle.marks.specs.Fronts.{marks_of, accepts, with_mark};

use crate::front::Front;
use crate::mark::Mark;

impl Front {
    // No mark: nobody has arrived yet.
    pub fn empty() -> Front
        ensures { marks_of result ≡ [] }
    {
        let blank = Mark {
            arrival: 0,
            boats: 0,
        };
        Front {
            row: [blank; 9],
            count: 0,
        }
    }

    // The marks, by rising boats.
    pub fn marks(&self) -> &[Mark]
        ensures value { result.now ≡ marks_of self.now }
        ensures few { length result.now ≤ 9 }
    {
        &self.row[..self.count]
    }

    // Some mark is no worse, so that this one need not be told.
    pub fn is_covered(&self, mark: Mark) -> bool
        ensures { result ≡ covered mark (marks_of self.now) }
    {
        self.marks().iter().any(|kept| kept.no_worse(mark))
    }

    // The row has a place that no mark takes.
    fn has_room(&self) -> bool
        ensures { result ≡ nat_lt self.now.count 9 }
    {
        self.count < 9
    }

    // The mark can come next: there is room, and it has more boats than the last and is earlier.
    pub fn accepts(&self, mark: Mark) -> bool
        ensures { result ≡ accepts (marks_of self.now) mark }
    {
        match self.marks().last() {
            Some(last) => self.has_room() && last.falls_to(mark),
            None => true,
        }
    }

    // One mark more at the end; where it cannot come next, the marks as they were.
    pub fn with(self, mark: Mark) -> Front
        ensures { marks_of result ≡ with_mark (marks_of self) mark }
    {
        if !self.accepts(mark) {
            return self;
        }
        let mut row = self.row;
        row[self.count] = mark;
        Front {
            row,
            count: self.count + 1,
        }
    }
}
