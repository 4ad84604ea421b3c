// How a leg of a plan is written, taken out and added, in the words that hold the plan. Past the plan's end, where it
// then is, they hold what they held.
ghost use Rattle.std.specs.Prelude.{◌≡◌, ◌+◌, ◌<◌, ◌≤◌, [], ◌∷◌, ◌++◌, length, nat_le, slice_set};
ghost use Rattle.std.specs.List.{remove};
ghost use Rattle.plan.specs.Legs.{with_legs};
ghost use Rattle.plan.specs.Words.{Whole, plan_in, plan_end, written};

use super::leg::Leg;
use super::words::{Draft, set_leg_count};

// The leg stands where the leg `i` stood.
pub fn put_leg(words: &mut [u64], i: usize, leg: Leg)
    requires whole { Whole words.old }
    requires within { i < length (plan_in words.old).legs }
    ensures { words.new ≡ written (with_legs (plan_in words.old)
        (slice_set (plan_in words.old).legs i leg)) words.old }
{
    let start = Draft::of(words).leg_start(i);
    leg.write(&mut words[start..start + 6]);
}

// The leg `i` is taken out: what stands behind it moves up.
pub fn remove_leg(words: &mut [u64], i: usize)
    requires whole { Whole words.old }
    requires within { i < length (plan_in words.old).legs }
    ensures { words.new ≡ written (with_legs (plan_in words.old)
        (remove (plan_in words.old).legs i)) words.old }
{
    let draft = Draft::of(words);
    let at = draft.leg_start(i);
    let end = draft.end();
    let legs = draft.legs();
    words.copy_within(at + 6..end, at);
    set_leg_count(words, legs - 1);
}

// The words have room for one leg more.
pub fn has_room(words: &[u64]) -> bool
    requires { Whole words.now }
    ensures { result ≡ nat_le (plan_end words.now + 6) (length words.now) }
{
    words.len() - Draft::of(words).end() >= 6
}

// The leg stands behind the other legs: what stands behind them moves down.
pub fn add_leg(words: &mut [u64], leg: Leg)
    requires whole { Whole words.old }
    requires room { plan_end words.old + 6 ≤ length words.old }
    ensures { words.new ≡ written (with_legs (plan_in words.old)
        ((plan_in words.old).legs ++ leg ∷ [])) words.old }
{
    let draft = Draft::of(words);
    let at = draft.walks_start();
    let end = draft.end();
    let legs = draft.legs();
    words.copy_within(at..end, at + 6);
    leg.write(&mut words[at..at + 6]);
    set_leg_count(words, legs + 1);
}

// Writes the plan that some words hold to the front of others.
pub fn copy_plan(source: &[u64], words: &mut [u64])
    requires whole { Whole source.now }
    requires room { plan_end source.now ≤ length words.old }
    ensures { words.new ≡ written (plan_in source.now) words.old }
{
    let end = Draft::of(source).end();
    words[..end].copy_from_slice(&source[..end]);
}
