// The rounds: with one boat, with one more, until so many.
ghost use Rattle.std.specs.Prelude.{◌≡◌, ℕ, ◌+◌, ◌<◌, ◌≤◌, true, [], length, slice_index};
ghost use Rattle.plan.specs.Legs.{no_leg, runs, piers};
ghost use Rattle.marks.specs.Answers.{AnswerOf};
ghost use Rattle.marks.specs.Fronts.{marks_of};
ghost use Rattle.rounds.specs.Rows.{plan_of};
ghost use Rattle.rounds.specs.Levels.{AboardFrom, Levels, Sown};
ghost use Rattle.rounds.specs.Boarding.{Waiting};
ghost use Rattle.rounds.specs.Answers.{There};

use crate::layout::Layout;
use crate::steps::{NEVER, last_seed, lower, nearer, opens, set_off};
use marks::front::Front;
use marks::mark::Mark;

// Writes down the places of the legs that run and leave at the time or later; how many there are.
fn find_candidates(layout: Layout, time: u64, waits: &mut [u16]) -> usize
    requires few { length layout.legs.now ≤ 65536 }
    requires room { length waits.old ≡ length layout.legs.now }
    ensures few { result ≤ length layout.entry.legs.now }
    ensures waiting { Waiting (plan_of layout.entry) time [] waits.new result
        (length layout.entry.legs.now) }
{
    let mut left = 0;
    for (i, a) in layout.legs.iter().enumerate() {
        // Written in any case, and kept if it counts: so there is no branch to guess wrong.
        waits[left] = i as u16;
        if a.leaves >= time && a.runs() {
            left += 1;
        }
    }
    left
}

// The place of the leg that waits at `c`.
fn candidate(waits: &[u16], c: usize, count: usize) -> usize
    requires within { c < length waits.now }
    requires below { slice_index waits.now c < count }
    ensures is { result ≡ slice_index waits.now c }
    ensures below { result < count }
{
    waits[c] as usize
}

// From a row of seeds, none of them before `time` and none greater than `last`: in `level` for each leg the least boats
// with which one can be aboard of it, and the marks at the pier `to`, where one is `on_foot` without a boat. The other
// rows are scratch.
//
// A round is one pass over the legs that wait for their level, by run and number. Who boards in this round is ready for
// the next one only, so the times that it makes earlier are those of `later`.
pub fn go_rounds_until(
    layout: Layout,
    seed: &[u8],
    last: u8,
    time: u64,
    to: u64,
    on_foot: u64,
    most: u8,
    level: &mut [u8],
    ready: &mut [u64],
    later: &mut [u64],
    arrived: &mut [u64],
    waits: &mut [u16],
) -> Front
    requires legs { length layout.legs.now ≤ 65536 }
    requires sown { Sown (plan_of layout) time seed.now }
    requires last { (i : ℕ) → i < length seed.now → slice_index seed.now i ≤ last }
    requires few { most ≤ 8 }
    requires seeds { length seed.now ≡ length layout.legs.now }
    requires levels { length level.old ≡ length layout.legs.now }
    requires waits { length waits.old ≡ length layout.legs.now }
    requires ready { length ready.old ≡ length layout.change.now }
    requires later { length later.old ≡ length layout.change.now }
    requires arrived { length arrived.old ≡ length layout.change.now }
    ensures levels { Levels (AboardFrom (plan_of layout.entry) seed.now) (plan_of layout.entry) most
        level.new }
    ensures marks { AnswerOf (There (plan_of layout.entry) seed.now to on_foot) most
        (marks_of result) }
{
    level.fill(0);
    ready.fill(NEVER);
    later.fill(NEVER);
    arrived.fill(NEVER);
    let mut left = find_candidates(layout, time, waits);
    let mut soon = on_foot;
    let mut front = set_off(on_foot);
    'rounds: for k in 0..most {
        let mut still = 0;
        // By place, since the row of those that wait is written while it is gone through.
        'legs: for c in 0..left {
            let i = candidate(waits, c, layout.legs.len());
            if !opens(layout, seed, ready, level, k + 1, i) {
                waits[still] = i as u16;
                still += 1;
                continue 'legs;
            }
            level[i] = k + 1;
            let a = layout.leg(i);
            let pier = a.to as usize;
            // Somebody was there as early, with no more boats: the leg offers nothing new.
            if a.comes >= arrived[pier] {
                continue 'legs;
            }
            arrived[pier] = a.comes;
            lower(later, pier, a.comes + layout.change_at(pier));
            soon = nearer(soon, to, a.to, a.comes);
            'walks: for j in layout.walks_from(pier) {
                let w = layout.walk(j);
                lower(later, w.to as usize, a.comes + w.takes);
                soon = nearer(soon, to, w.to, a.comes + w.takes);
            }
        }
        // Nobody has boarded, and no seed is for a later round: none will.
        if still == left && k + 1 >= last {
            break 'rounds;
        }
        if soon < NEVER {
            front = front.with(Mark {
                arrival: soon,
                boats: k as u64 + 1,
            });
        }
        ready.copy_from_slice(later);
        left = still;
    }
    front
}

// The same, where it is not known which seed is the greatest.
pub fn go_rounds(
    layout: Layout,
    seed: &[u8],
    time: u64,
    to: u64,
    on_foot: u64,
    most: u8,
    level: &mut [u8],
    ready: &mut [u64],
    later: &mut [u64],
    arrived: &mut [u64],
    waits: &mut [u16],
) -> Front
    requires legs { length layout.legs.now ≤ 65536 }
    requires sown { Sown (plan_of layout) time seed.now }
    requires few { most ≤ 8 }
    requires seeds { length seed.now ≡ length layout.legs.now }
    requires levels { length level.old ≡ length layout.legs.now }
    requires waits { length waits.old ≡ length layout.legs.now }
    requires ready { length ready.old ≡ length layout.change.now }
    requires later { length later.old ≡ length layout.change.now }
    requires arrived { length arrived.old ≡ length layout.change.now }
    ensures levels { Levels (AboardFrom (plan_of layout.entry) seed.now) (plan_of layout.entry) most
        level.new }
    ensures marks { AnswerOf (There (plan_of layout.entry) seed.now to on_foot) most
        (marks_of result) }
{
    go_rounds_until(
        layout,
        seed,
        last_seed(seed),
        time,
        to,
        on_foot,
        most,
        level,
        ready,
        later,
        arrived,
        waits,
    )
}
