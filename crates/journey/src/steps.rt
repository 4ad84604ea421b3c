// From one leg to the next.
ghost use Rattle.std.specs.Prelude.{◌≡◌, ◌<◌};
ghost use Rattle.plan.specs.Legs.{piers, time_bound};
ghost use Rattle.plan.specs.Words.{plan_in};
ghost use Rattle.plan.specs.Sound.{LegWithin};
ghost use Rattle.journey.specs.Steps.{stays, catches, leads, change_for, changes, walks_to, walks, follows, begins};

use crate::at::At;
use plan::leg::Leg;
use plan::timetable::Timetable;
use plan::walk::Walk;

// The second leg is the next of the run, so that one stays aboard for it. The next number of the last there is would
// wrap, so the numbers are compared by their difference.
pub fn stays(a: Leg, b: Leg) -> bool
    ensures { result ≡ stays a b }
{
    a.run == b.run
        && a.number < b.number
        && b.number - a.number == 1
        && b.from == a.to
        && a.comes <= b.leaves
}

// Who is there catches the leg.
pub fn catches(at: At, leg: Leg) -> bool
    ensures { result ≡ catches at.pier at.time leg }
{
    leg.from == at.pier && at.time <= leg.leaves
}

// The walk leads from the one to the other, in time.
pub fn leads(w: Walk, from: At, to: At) -> bool
    ensures { result ≡ leads w from.pier from.time to.pier to.time }
{
    w.from == from.pier && w.to == to.pier && from.time <= to.time && w.takes <= to.time - from.time
}

// The minutes that a change from one leg to another takes: those of the pier.
pub fn change_for(table: Timetable<'_>, a: Leg, b: Leg) -> u64
    requires { a.to < piers (plan_in table.words.now) }
    ensures value { result ≡ change_for (plan_in table.entry.words.now) a b }
    ensures within { result < time_bound }
{
    table.change(a.to as usize)
}

// One changes boats at the pier where the first leg comes.
pub fn changes(table: Timetable<'_>, a: Leg, b: Leg) -> bool
    requires { LegWithin (piers (plan_in table.words.now)) a }
    ensures { result ≡ changes (plan_in table.entry.words.now) a b }
{
    catches(At::arrival_of(a).after(change_for(table, a, b)), b)
}

// Some walk leads from the one to the other, in time.
pub fn walks_to(table: Timetable<'_>, from: At, to: At) -> bool
    ensures { result ≡ walks_to (plan_in table.entry.words.now).walks from.pier from.time to.pier to.time }
{
    (0..table.walks()).any(|j| leads(table.walk(j), from, to))
}

// One walks from the pier where the first leg comes to the one that the second goes from.
pub fn walks(table: Timetable<'_>, a: Leg, b: Leg) -> bool
    ensures { result ≡ walks (plan_in table.entry.words.now) a b }
{
    walks_to(table, At::arrival_of(a), At::departure_of(b))
}

// One leg follows another: one stays aboard for it, changes boats, or walks.
pub fn follows(table: Timetable<'_>, a: Leg, b: Leg) -> bool
    requires { LegWithin (piers (plan_in table.words.now)) a }
    ensures { result ≡ follows (plan_in table.entry.words.now) a b }
{
    stays(a, b) || changes(table, a, b) || walks(table, a, b)
}

// A journey can begin with the leg: one catches it there, or where a walk leads in time.
pub fn begins(table: Timetable<'_>, at: At, leg: Leg) -> bool
    ensures { result ≡ begins (plan_in table.entry.words.now) at.pier at.time leg }
{
    catches(at, leg) || walks_to(table, at, At::departure_of(leg))
}
