// The answer to a question over lent memory.
ghost use Rattle.std.specs.Prelude.{◌≡◌, ◌≤◌, length};
ghost use Rattle.plan.specs.Legs.{piers};
ghost use Rattle.plan.specs.Words.{plan_in};
ghost use Rattle.plan.specs.Sound.{Few};
ghost use Rattle.plan.specs.Keys.{Ordered};
ghost use Rattle.marks.specs.Fronts.{marks_of};
ghost use Rattle.rounds.specs.Query.{query_checked};
ghost use Rattle.rounds.specs.Rows.{plan_of};
ghost use Rattle.rounds.specs.Answers.{Answer, Asked};
ghost use Rattle.rounds.specs.Entry.{Answered, AnsweredBy, MarkedBy};

use crate::layout::{BLANK_LEG, BLANK_WALK, Layout};
use crate::opening::Rows;
use crate::query::{Query, read_query};
use crate::workspace::Workspace;
use marks::front::Front;
use plan::bounds::{MOST_LEGS, MOST_PIERS, MOST_WALKS};
use plan::checking::check_in_order;
use plan::refusal::Refusal;
use plan::timetable::Timetable;

// The answer to a question about a plan that is laid out, with working rows on the stack.
fn ask(layout: Layout, query: Query) -> Front
    requires few { Few (plan_of layout) }
    requires asked { Asked (plan_of layout) query.question }
    requires most { query.most ≤ 8 }
    ensures { Answer (plan_of layout.entry) query.most query.question (marks_of result) }
{
    Workspace::new().answer(layout, query)
}

// The marks that answer a question about a plan that was laid out before: nothing of the plan is checked again.
pub fn marks_opened(layout: Layout, question: &[u64]) -> Result<Front, Refusal>
    requires few { Few (plan_of layout) }
    ensures { MarkedBy (query_checked (piers (plan_of layout.entry)) question.now) (plan_of layout.entry) result }
{
    let query = read_query(layout.change.len(), question)?;
    Ok(ask(layout, query))
}

// The same, written into the lent row.
pub fn answer_opened(layout: Layout, question: &[u64], out: &mut [u64]) -> Result<u64, Refusal>
    requires few { Few (plan_of layout) }
    ensures { AnsweredBy (query_checked (piers (plan_of layout.entry)) question.now)
        (plan_of layout.entry) out.old result out.new }
{
    marks_opened(layout, question)?.write(out)
}

// The answer to a question about a checked plan of at most so many legs: lays it out in rows on the stack, and asks. The
// rows are its own, since the check covers no struct that owns rows and lends a layout of them to be written.
fn answer_in_rows<const LEGS: usize>(
    table: Timetable,
    keys: &[u64],
    question: &[u64],
    out: &mut [u64],
) -> Result<u64, Refusal>
    requires ordered { Ordered (plan_in table.words.now) keys.now }
    requires few { Few (plan_in table.words.now) }
    requires room { length (plan_in table.words.now).legs ≤ LEGS }
    requires small { LEGS ≤ 65536 }
    ensures { AnsweredBy (query_checked (piers (plan_in table.entry.words.now)) question.now)
        (plan_in table.entry.words.now) out.old result out.new }
{
    let mut legs = [BLANK_LEG; LEGS];
    let mut joins = [false; LEGS];
    let mut walks = [BLANK_WALK; MOST_WALKS];
    let mut first = [0u16; MOST_PIERS];
    let mut link = [0u16; MOST_WALKS];
    let mut change = [0u64; MOST_PIERS];
    let rows = Rows {
        legs: &mut legs,
        joins: &mut joins,
        walks: &mut walks,
        first: &mut first,
        link: &mut link,
        change: &mut change,
    };
    answer_opened(rows.lay_out_in_front(table, keys), question, out)
}

// The same in rows that are not much longer than the plan: to clear rows for the largest would take a small one most of
// its time.
fn answer_checked(
    table: Timetable,
    keys: &[u64],
    question: &[u64],
    out: &mut [u64],
) -> Result<u64, Refusal>
    requires ordered { Ordered (plan_in table.words.now) keys.now }
    requires few { Few (plan_in table.words.now) }
    ensures { AnsweredBy (query_checked (piers (plan_in table.entry.words.now)) question.now)
        (plan_in table.entry.words.now) out.old result out.new }
{
    let legs = table.legs();
    if legs <= 64 {
        answer_in_rows::<64>(table, keys, question, out)
    } else if legs <= 512 {
        answer_in_rows::<512>(table, keys, question, out)
    } else {
        answer_in_rows::<MOST_LEGS>(table, keys, question, out)
    }
}

// The answer to a question about a plan in lent memory, written into the lent row: the count of marks, and the arrival
// and the boats of each. Where it is refused, the row is as it was.
pub fn answer(plan: &[u64], question: &[u64], out: &mut [u64]) -> Result<u64, Refusal>
    ensures { Answered plan.now question.now out.old result out.new }
{
    let mut keys = [0u64; MOST_LEGS];
    let _ = check_in_order(plan, &mut keys)?;
    let table = Timetable::of(plan);
    let legs = table.legs();
    answer_checked(table, &keys[..legs], question, out)
}
