// A question to a plan that is laid out.
ghost use Rattle.std.specs.Prelude.{◌≡◌, ℕ, ◌+◌, ◌<◌, ◌≤◌, length, if◌then◌else◌, slice_index};
ghost use Rattle.plan.specs.Legs.{leg, time_bound};
ghost use Rattle.journey.specs.Aboard.{Aboard};
ghost use Rattle.marks.specs.Fronts.{marks_of};
ghost use Rattle.rounds.specs.Rows.{plan_of};
ghost use Rattle.rounds.specs.Levels.{Levels};
ghost use Rattle.rounds.specs.Times.{Outset};
ghost use Rattle.rounds.specs.Boarding.{ready_for};
ghost use Rattle.rounds.specs.Answers.{Answer, Asked, Seeds};

use crate::layout::Layout;
use crate::rounds::go_rounds_until;
use crate::steps::{NEVER, is_in_time, lower};
use journey::question::Question;
use marks::front::Front;

// For each pier the earliest time at which one is there without a boat.
fn set_out(layout: Layout, q: Question, ready: &mut [u64])
    requires asked { Asked (plan_of layout) q }
    requires piers { length ready.old ≡ length layout.change.now }
    ensures { Outset (plan_of layout.entry) q.from q.time ready.new }
{
    ready.fill(NEVER);
    lower(ready, q.from as usize, q.time);
    for j in layout.walks_from(q.from as usize) {
        let w = layout.walk(j);
        lower(ready, w.to as usize, q.time + w.takes);
    }
}

// One boat for each leg whose pier one is at in time.
fn sow(layout: Layout, ready: &[u64], seed: &mut [u8])
    requires piers { length ready.now ≡ length layout.change.now }
    requires seeds { length seed.old ≡ length layout.legs.now }
    ensures { (i : ℕ) → i < length layout.entry.legs.now →
        slice_index seed.new i ≡ (if ready_for ready.now (leg (plan_of layout.entry) i) then 1 else 0) }
{
    for (i, boats) in seed.iter_mut().enumerate() {
        *boats = u8::from(is_in_time(layout, ready, i));
    }
}

// Seeds the legs that a journey can begin with, and leaves in `ready` when one is at each pier without a boat. Whether
// a leg runs is not asked: the rounds take none that does not.
fn seed_question(layout: Layout, q: Question, ready: &mut [u64], seed: &mut [u8])
    requires asked { Asked (plan_of layout) q }
    requires piers { length ready.old ≡ length layout.change.now }
    requires seeds { length seed.old ≡ length layout.legs.now }
    ensures seeds { Seeds (plan_of layout.entry) q seed.new }
    ensures outset { Outset (plan_of layout.entry) q.from q.time ready.new }
{
    set_out(layout, q, ready);
    sow(layout, ready, seed);
}

// The answer to the question, and in `level` for each leg the least boats of a journey that ends with it. The other
// rows are scratch.
pub fn answer_laid(
    layout: Layout,
    q: Question,
    most: u8,
    level: &mut [u8],
    seed: &mut [u8],
    ready: &mut [u64],
    later: &mut [u64],
    arrived: &mut [u64],
    waits: &mut [u16],
) -> Front
    requires legs { length layout.legs.now ≤ 65536 }
    requires asked { Asked (plan_of layout) q }
    requires few { most ≤ 8 }
    requires levels { length level.old ≡ length layout.legs.now }
    requires seeds { length seed.old ≡ length layout.legs.now }
    requires waits { length waits.old ≡ length layout.legs.now }
    requires ready { length ready.old ≡ length layout.change.now }
    requires later { length later.old ≡ length layout.change.now }
    requires arrived { length arrived.old ≡ length layout.change.now }
    ensures answer { Answer (plan_of layout.entry) most q (marks_of result) }
    ensures levels { Levels (Aboard (plan_of layout.entry) q.from q.time) (plan_of layout.entry) most
        level.new }
{
    seed_question(layout, q, ready, seed);
    let on_foot = ready[q.to as usize];
    go_rounds_until(
        layout, seed, 1, q.time, q.to, on_foot, most, level, ready, later, arrived, waits,
    )
}
