// The answer as functions that other languages call, for the race with plain Rust.
#![tactic(auto)]

ghost use Rattle.std.specs.Prelude.{◌≡◌, ◌/◌, length};
ghost use Rattle.plan.specs.Sound.{Few};
ghost use Rattle.plan.specs.Words.{plan_in};
ghost use Rattle.plan.specs.Keys.{Ordered};
ghost use Rattle.plan.specs.Check.{plan_checked};
ghost use Rattle.rounds.specs.Entry.{Reply, Answered, reply_number};
ghost use Rattle.rounds.specs.Rows.{plan_of};
ghost use Rattle.race.specs.Each.{EachAnswered, Raced};

use plan::bounds::{MOST_LEGS, MOST_PIERS, MOST_WALKS};
use plan::checking::check_in_order;
use plan::timetable::Timetable;
use rounds::answer::{answer, answer_opened};
use rounds::layout::{BLANK_LEG, BLANK_WALK, Layout};
use rounds::opening::Rows;
use rounds::reply;

// One question about a plan that is checked and laid out for it.
#[unsafe(no_mangle)]
pub extern "C" fn race_cold(plan: &[u64], question: &[u64], out: &mut [u64]) -> u64
    ensures { (reply : Reply) × (result ≡ reply_number reply)
        × Answered plan.now question.now out.old reply out.new }
{
    reply::number(answer(plan, question, out))
}

// Each question of four numbers, answered in its own row of nineteen; one that has no row is left out.
fn answer_each(layout: Layout, questions: &[u64], out: &mut [u64])
    requires few { Few (plan_of layout) }
    ensures { EachAnswered (plan_of layout.entry) questions.now out.old out.new
        (length questions.now / 4) }
{
    // By place: of a row that `chunks_exact_mut` lends a proof knows its length afterwards and nothing of its numbers.
    for i in 0..questions.len() / 4 {
        if 19 * i + 19 <= out.len() {
            let _ = answer_opened(
                layout,
                &questions[4 * i..4 * i + 4],
                &mut out[19 * i..19 * i + 19],
            );
        }
    }
}

// The same about a checked plan: lays it out in rows on the stack.
fn answer_each_checked(table: Timetable, keys: &[u64], questions: &[u64], out: &mut [u64])
    requires ordered { Ordered (plan_in table.words.now) keys.now }
    requires few { Few (plan_in table.words.now) }
    ensures { EachAnswered (plan_in table.entry.words.now) questions.now out.old
        out.new (length questions.now / 4) }
{
    let mut legs = [BLANK_LEG; MOST_LEGS];
    let mut joins = [false; MOST_LEGS];
    let mut walks = [BLANK_WALK; MOST_WALKS];
    let mut first = [0u16; MOST_PIERS];
    let mut link = [0u16; MOST_WALKS];
    let mut change = [0u64; MOST_PIERS];
    let rows = Rows {
        legs: &mut legs,
        joins: &mut joins,
        walks: &mut walks,
        first: &mut first,
        link: &mut link,
        change: &mut change,
    };
    answer_each(rows.lay_out_in_front(table, keys), questions, out);
}

// Many questions about a plan that is checked and laid out once; the refusal's number, or 0.
#[unsafe(no_mangle)]
pub extern "C" fn race_opened(plan: &[u64], questions: &[u64], out: &mut [u64]) -> u64
    ensures { Raced (plan_checked plan.now) (plan_in plan.now) questions.now
        out.old result out.new }
{
    let mut keys = [0u64; MOST_LEGS];
    match check_in_order(plan, &mut keys) {
        Ok(_) => {
            let table = Timetable::of(plan);
            let legs = table.legs();
            answer_each_checked(table, &keys[0..legs], questions, out);
            0
        }
        Err(refusal) => refusal.number(),
    }
}
