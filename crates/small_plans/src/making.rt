// Random plans that are made to hurt: few piers and few minutes, so that boats meet, miss each other by a minute and
// come at the same time; runs that go on, so that one can stay aboard where there is no time to change. In which order
// numbers are drawn for the parts of a plan, and where a leg is put among the others, is left to who makes plans of them.
ghost use Rattle.std.specs.Prelude.{◌≡◌, ◌≤◌, All, IfOk, vec_len};
ghost use Rattle.small_plans.specs.Piers.{GoesWithin};

use crate::chance::Chance;
use crate::small::{Leg, Question, SmallPlan, Spot, Walk};
use std::alloc::{AllocError, Global};

// Boats leave and come from 0 to this minute.
const LAST_MINUTE: u64 = 12;

// A pier to go to from this one: seldom the same.
fn random_pier_from(chance: &mut Chance, last_pier: u64, from: u64) -> u64
    ensures { result ≤ last_pier }
{
    let to = chance.up_to(last_pier);
    if to == from {
        chance.up_to(last_pier)
    } else {
        to
    }
}

// The changes of so many piers.
pub fn random_changes(
    heap: Global,
    chance: &mut Chance,
    piers: usize,
) -> Result<Vec<u64>, AllocError>
    ensures { IfOk result (λ v. vec_len v ≡ piers) }
{
    (0..piers).map(|_| chance.up_to(4)).collect(heap)
}

// The minutes of a walk: few, so that one catches a boat, or so many that a boat is better.
fn random_minutes(chance: &mut Chance) -> u64 {
    if chance.once_in(2) {
        chance.up_to(3)
    } else {
        chance.up_to(LAST_MINUTE)
    }
}

// A walk from anywhere to anywhere, the same pier too.
pub fn random_walk(chance: &mut Chance, last_pier: u64) -> Walk
    ensures { GoesWithin last_pier result }
{
    let from = chance.up_to(last_pier);
    let to = random_pier_from(chance, last_pier, from);
    let takes = random_minutes(chance);
    Walk { from, to, takes }
}

// Beside the walk before, or the other way, in other minutes; or anywhere.
fn next_walk(chance: &mut Chance, last_pier: u64, last: Walk) -> Walk
    requires { GoesWithin last_pier last }
    ensures { GoesWithin last_pier result }
{
    let takes = random_minutes(chance);
    match chance.up_to(4) {
        0 => Walk { takes, ..last },
        1 => Walk {
            from: last.to,
            to: last.from,
            takes,
        },
        _ => random_walk(chance, last_pier),
    }
}

// So many walks, each made after the one before, and the first of them after the given one.
pub fn walks_after(
    heap: Global,
    chance: &mut Chance,
    last_pier: u64,
    mut last: Walk,
    count: u64,
) -> Result<Vec<Walk>, AllocError>
    requires { GoesWithin last_pier last }
    ensures count { IfOk result (λ v. vec_len v ≡ count) }
    ensures piers { IfOk result (λ v. All (GoesWithin last_pier) v.items) }
{
    let mut walks = Vec::new(heap);
    for _ in 0..count {
        last = next_walk(chance, last_pier, last);
        walks.push(last)?;
    }
    Ok(walks)
}

// When a boat comes that leaves at this time. Often it comes at once. Where it is slow, more boats may be worth it.
// Sometimes it comes before it leaves, so that the leg does not run.
fn random_coming(chance: &mut Chance, leaves: u64) -> u64 {
    if chance.once_in(12) {
        return leaves.saturating_sub(1);
    }
    let takes = if chance.once_in(4) {
        LAST_MINUTE - chance.up_to(LAST_MINUTE).min(chance.up_to(LAST_MINUTE))
    } else {
        chance.up_to(2)
    };
    leaves.saturating_add(takes).min(LAST_MINUTE).max(leaves)
}

// A leg of any run from a pier, at a time, to anywhere.
fn random_leg(chance: &mut Chance, last_pier: u64, from: u64, leaves: u64) -> Leg {
    Leg {
        run: chance.up_to(3),
        number: chance.up_to(5),
        from,
        to: random_pier_from(chance, last_pier, from),
        leaves,
        comes: random_coming(chance, leaves),
    }
}

// Early rather than late, so that others can follow.
fn new_leg(chance: &mut Chance, last_pier: u64) -> Leg {
    let from = chance.up_to(last_pier);
    let leaves = chance.up_to(LAST_MINUTE).min(chance.up_to(LAST_MINUTE));
    random_leg(chance, last_pier, from, leaves)
}

// The next leg of the run, at once or a little later.
fn leg_to_stay_for(chance: &mut Chance, last_pier: u64, last: Leg) -> Leg {
    let leaves = last.comes.saturating_add(chance.up_to(2)).min(LAST_MINUTE);
    Leg {
        run: last.run,
        number: last.number.saturating_add(1),
        ..random_leg(chance, last_pier, last.to, leaves)
    }
}

// A minute too early for who is there at a time, just in time, or a minute later.
fn about(chance: &mut Chance, time: u64) -> u64 {
    time.saturating_add(chance.up_to(2))
        .saturating_sub(1)
        .min(LAST_MINUTE)
}

fn leg_to_change_to(chance: &mut Chance, plan: &SmallPlan, last: Leg) -> Leg {
    let change = plan.changes.get(last.to as usize).copied().unwrap_or(0);
    let leaves = about(chance, last.comes.saturating_add(change));
    random_leg(chance, plan.last_pier(), last.to, leaves)
}

// By the first walk from where the last leg comes; a new leg where there is none.
fn leg_to_walk_to(chance: &mut Chance, plan: &SmallPlan, last: Leg) -> Leg {
    match plan.walks.iter().find(|walk| walk.from == last.to) {
        Some(walk) => {
            let leaves = about(chance, last.comes.saturating_add(walk.takes));
            random_leg(chance, plan.last_pier(), walk.to, leaves)
        }
        None => new_leg(chance, plan.last_pier()),
    }
}

fn rival(chance: &mut Chance, last_pier: u64, chain: Chain) -> Leg {
    Leg {
        to: chain.last.to,
        comes: chain
            .last
            .comes
            .saturating_add(chance.up_to(2))
            .min(LAST_MINUTE),
        ..random_leg(chance, last_pier, chain.first.from, chain.first.leaves)
    }
}

// How a leg is made, after others that lead one to the next.
#[derive(Clone, Copy)]
enum Kind {
    // From anywhere to anywhere.
    New,
    // The next leg of the run, so that one can stay aboard.
    Stay,
    // A leg that one just catches, or just misses, by a change.
    Change,
    // The same by a walk.
    Walk,
    // A leg that goes all the way at once, and comes at the same time or later: fewer boats.
    Rival,
}

impl Kind {
    fn random(chance: &mut Chance) -> Kind {
        match chance.up_to(9) {
            0 => Kind::New,
            1..=4 => Kind::Stay,
            5 => Kind::Change,
            6..=7 => Kind::Walk,
            _ => Kind::Rival,
        }
    }
}

// Legs that lead one to the next: the first and the last of them.
#[derive(Clone, Copy)]
struct Chain {
    first: Leg,
    last: Leg,
}

impl Chain {
    fn of(leg: Leg) -> Chain {
        Chain {
            first: leg,
            last: leg,
        }
    }

    fn with(self, kind: Kind, leg: Leg) -> Chain {
        match kind {
            Kind::New => Chain::of(leg),
            Kind::Stay | Kind::Change | Kind::Walk => Chain { last: leg, ..self },
            Kind::Rival => self,
        }
    }
}

fn make_leg(chance: &mut Chance, plan: &SmallPlan, chain: Chain, kind: Kind) -> Leg {
    let last_pier = plan.last_pier();
    match kind {
        Kind::New => new_leg(chance, last_pier),
        Kind::Stay => leg_to_stay_for(chance, last_pier, chain.last),
        Kind::Change => leg_to_change_to(chance, plan, chain.last),
        Kind::Walk => leg_to_walk_to(chance, plan, chain.last),
        Kind::Rival => rival(chance, last_pier, chain),
    }
}

fn has_name(legs: &[Leg], run: u64, number: u64) -> bool {
    legs.iter()
        .any(|leg| leg.run == run && leg.number == number)
}

// The leg with the first number from its own on that no leg of its run has.
fn with_new_name(legs: &[Leg], leg: Leg) -> Leg {
    let free = (leg.number..u64::MAX).find(|number| !has_name(legs, leg.run, *number));
    Leg {
        number: free.unwrap_or(leg.number),
        ..leg
    }
}

// Three to seven legs for a plan that has its piers and its walks. Each is added to those before it as the caller says.
pub fn make_legs<F>(chance: &mut Chance, plan: &mut SmallPlan, add: F) -> Result<(), AllocError>
where
    F: Fn(&mut Chance, &mut Vec<Leg>, Leg) -> Result<(), AllocError> + Drop,
    requires { F.IsAlwaysCallable add }
    ensures changes { plan.new.changes.items ≡ plan.old.changes.items }
    ensures walks { plan.new.walks.items ≡ plan.old.walks.items }
{
    let first = new_leg(chance, plan.last_pier());
    let mut chain = Chain::of(first);
    add(chance, &mut plan.legs, first)?;
    for _ in 0..2 + chance.up_to(4).max(chance.up_to(4)) {
        let kind = Kind::random(chance);
        let leg = with_new_name(&plan.legs, make_leg(chance, plan, chain, kind));
        chain = chain.with(kind, leg);
        add(chance, &mut plan.legs, leg)?;
    }
    Ok(())
}

// Where the leg goes from, a little before it leaves.
pub fn before_leg(chance: &mut Chance, leg: Leg) -> Spot
    ensures pier { result.pier ≡ leg.from }
    ensures time { result.time ≤ leg.leaves }
{
    Spot {
        pier: leg.from,
        time: leg.leaves.saturating_sub(chance.up_to(2)),
    }
}

pub fn anywhere(chance: &mut Chance, last_pier: u64) -> Spot
    ensures { result.pier ≤ last_pier }
{
    Spot {
        pier: chance.up_to(last_pier),
        time: chance.up_to(LAST_MINUTE),
    }
}

// A question of who sets out there, to anywhere.
pub fn question_from(chance: &mut Chance, last_pier: u64, start: Spot) -> Question
    ensures from { result.from ≡ start.pier }
    ensures time { result.time ≡ start.time }
    ensures to { result.to ≤ last_pier }
    ensures most { result.most ≤ 8 }
{
    Question {
        from: start.pier,
        time: start.time,
        to: random_pier_from(chance, last_pier, start.pier),
        most: chance.up_to(8),
    }
}
