// Ways on from a leg, over a plan that is laid out: the walks of a pier are those of its chain. `journey::steps` has the
// same over a plan that is only checked, where all walks are looked at.
ghost use Rattle.std.specs.Prelude.{◌≡◌, ◌<◌, length, Decides};
ghost use Rattle.plan.specs.Legs.{piers, time_bound};
ghost use Rattle.plan.specs.Sound.{LegWithin};
ghost use Rattle.journey.specs.Steps.{walks_to, boards, begins};
ghost use Rattle.journey.specs.Journeys.{Ends};
ghost use Rattle.rounds.specs.Rows.{plan_of};
ghost use Rattle.rounds.specs.Answers.{Asked};

use journey::at::At;
use journey::question::Question;
use journey::steps::{catches, leads};
use plan::leg::Leg;
use rounds::layout::Layout;

// Some walk leads from the one to the other, in time.
fn walks_to(layout: Layout, from: At, to: At) -> bool
    requires there { from.pier < piers (plan_of layout) }
    ensures { result ≡ walks_to layout.entry.walks.now from.pier from.time to.pier to.time }
{
    for j in layout.walks_from(from.pier as usize) {
        if leads(layout.walk(j), from, to) {
            return true;
        }
    }
    false
}

// One goes aboard of another boat, by a change or a walk.
pub(crate) fn boards(layout: Layout, a: Leg, b: Leg) -> bool
    requires leg { LegWithin (piers (plan_of layout)) a }
    ensures { result ≡ boards (plan_of layout.entry) a b }
{
    catches(At::arrival_of(a).after(layout.change_at(a.to as usize)), b)
        || walks_to(layout, At::arrival_of(a), At::departure_of(b))
}

// A journey that answers the question can begin with the leg.
pub(crate) fn begins(layout: Layout, q: Question, a: Leg) -> bool
    requires asked { Asked (plan_of layout) q }
    ensures { result ≡ begins (plan_of layout.entry) q.from q.time a }
{
    catches(q.outset(), a) || walks_to(layout, q.outset(), At::departure_of(a))
}

// From where the leg comes one is at the pier at exactly that time: there, or by a walk.
pub(crate) fn ends_at(layout: Layout, a: Leg, at: At) -> bool
    requires leg { LegWithin (piers (plan_of layout)) a }
    ensures { Decides result (Ends (plan_of layout.entry) at.pier a.to a.comes at.time) }
{
    if a.to == at.pier && a.comes == at.time {
        return true;
    }
    for j in layout.walks_from(a.to as usize) {
        let w = layout.walk(j);
        if w.to == at.pier && a.comes + w.takes == at.time {
            return true;
        }
    }
    false
}
