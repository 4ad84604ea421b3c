// The marks of a question, in an array of nine: with 0 to 8 boats there are no more.
ghost use Rattle.std.specs.Prelude.{◌≡◌, ◌≤◌, true, length, take};
ghost use Rattle.marks.specs.Marks.{in_order};

use crate::mark::Mark;

mod keep;
mod row;
mod text;

#[derive(Clone, Copy)]
pub struct Front {
    // The marks are the first so many of the row; what stands behind them is of no account. An array and no Vec, since
    // an answer uses no heap.
    row: [Mark; 9],
    count: usize,
    ghost nine: { length row ≡ 9 },
    ghost within: { count ≤ 9 },
    // Fewer boats first, each later mark earlier.
    ghost ordered: { in_order (take count row) ≡ true },
}
