// The small steps of a round.
ghost use Rattle.std.specs.Prelude.{◌≡◌, ℕ, ◌-◌, ◌<◌, ◌≤◌, true, false, ◌&&◌, ltb, [], ◌∷◌, length, if◌then◌else◌, Decides, nat_le, nat_lt, slice_index, slice_index_or};
ghost use Rattle.plan.specs.Legs.{no_leg, no_walk, leg, runs};
ghost use Rattle.marks.specs.Fronts.{marks_of};
ghost use Rattle.rounds.specs.Rows.{plan_of};
ghost use Rattle.rounds.specs.Times.{never, Put, Lowered};
ghost use Rattle.rounds.specs.Boarding.{Opens, ready_for};

use crate::layout::Layout;
use marks::front::Front;
use marks::mark::Mark;

// Later than any time of a plan, and than any sum of two. A number and no Option: an Option orders nobody before every
// time, and the earliest is wanted.
pub(crate) const NEVER: u64 = 1099511627776;

// Somebody stays aboard for the leg at `i` from the leg right before it. Where nobody may, the leg itself is looked at:
// so there is no branch to guess wrong.
fn is_stayed_for(joins: &[bool], level: &[u8], i: usize) -> bool
    requires first { slice_index_or joins.now i false ≡ true → 1 ≤ i }
    requires joins { i < length joins.now }
    requires levels { i < length level.now }
    ensures { result ≡ (slice_index_or joins.now i false && nat_lt 0 (slice_index level.now (i - 1))) }
{
    joins[i] & (level[i - joins[i] as usize] > 0)
}

// With so many boats a leg of this seed can be boarded from outside. No seed is 0, which wraps.
fn is_seeded(seed: u8, boats: u8) -> bool
    ensures { result ≡ (nat_le 1 seed && nat_le seed boats) }
{
    seed.wrapping_sub(1) < boats
}

// Whoever is ready at the pier of the leg at `i` is so in time.
pub(crate) fn is_in_time(layout: Layout, ready: &[u64], i: usize) -> bool
    requires within { i < length layout.legs.now }
    requires piers { length ready.now ≡ length layout.change.now }
    ensures { result ≡ ready_for ready.now (leg (plan_of layout.entry) i) }
{
    let b = layout.leg(i);
    ready[b.from as usize] <= b.leaves
}

// Whether the leg at `i` can be boarded with so many boats: from outside, by staying aboard from the leg before it, or
// by whoever is ready at its pier.
pub(crate) fn opens(
    layout: Layout,
    seed: &[u8],
    ready: &[u64],
    level: &[u8],
    boats: u8,
    i: usize,
) -> bool
    requires within { i < length layout.legs.now }
    requires going { runs (leg (plan_of layout) i) ≡ true }
    requires seeds { length seed.now ≡ length layout.legs.now }
    requires levels { length level.now ≡ length layout.legs.now }
    requires piers { length ready.now ≡ length layout.change.now }
    ensures { Decides result (Opens (plan_of layout.entry) seed.now boats ready.now
        level.now i) }
{
    if is_stayed_for(layout.joins, level, i) {
        return true;
    }
    if is_seeded(seed[i], boats) {
        return true;
    }
    is_in_time(layout, ready, i)
}

// A time comes up at a pier: the row keeps the earliest for each.
pub(crate) fn lower(row: &mut [u64], pier: usize, time: u64)
    requires { pier < length row.old }
    ensures { Lowered row.old pier time row.new }
{
    if time < row[pier] {
        row[pier] = time;
    }
}

// The same for one pier, `to`, alone.
pub(crate) fn nearer(soon: u64, to: u64, pier: u64, time: u64) -> u64
    ensures { Put pier time to soon result }
{
    if pier == to && time < soon {
        time
    } else {
        soon
    }
}

// The marks before the first round: one is there without a boat, or not.
pub(crate) fn set_off(on_foot: u64) -> Front
    ensures { marks_of result ≡ (if ltb on_foot never then (record { arrival = on_foot; boats = 0 } ∷ []) else []) }
{
    if on_foot < NEVER {
        Front::empty().with(Mark {
            arrival: on_foot,
            boats: 0,
        })
    } else {
        Front::empty()
    }
}

// No seed is greater.
pub(crate) fn last_seed(seed: &[u8]) -> u8
    ensures { (i : ℕ) → i < length seed.now → slice_index seed.now i ≤ result }
{
    let mut last = 0;
    for boats in seed {
        last = last.max(*boats);
    }
    last
}
