// A plan laid out for questions: the rows are lent, so that a plan of any size can be laid out.
ghost use Rattle.std.proofs.Props.{props};
ghost use Rattle.rounds.specs.Opened.{plan_of as plan_from};
ghost use Rattle.rounds.specs.Layout.{Laid};

use crate::chains::{Along, Chain};
use plan::leg::Leg;
use plan::walk::Walk;

#[derive(Clone, Copy)]
pub struct Layout<'a> {
    // The legs by run and number.
    pub legs: &'a [Leg],
    // For each leg, whether one may stay aboard for it from the leg right before it.
    pub joins: &'a [bool],
    pub walks: &'a [Walk],
    // The walks by the pier they go from.
    pub outgoing: Chain<'a>,
    // For each pier what a change of boats takes there.
    pub change: &'a [u64],
    // All that is known of the rows by place.
    pub ghost laid: { Laid (plan_from legs.now walks.now change.now) joins.now outgoing.last.now outgoing.prior.now } by { Prim.hlevel props },
}

impl<'a> Layout<'a> {
    ghost use Rattle.std.specs.Prelude.{◌≡◌, ◌<◌, length, slice_index};
    ghost use Rattle.plan.specs.Legs.{leg, walk, change_at, piers, time_bound};
    ghost use Rattle.plan.specs.Sound.{LegWithin, WalkWithin};
    ghost use Rattle.rounds.specs.Chains.{places};
    ghost use Rattle.rounds.specs.Rows.{plan_of, places_left};

    pub fn leg(self, i: usize) -> Leg
        requires { i < length self.legs.now }
        ensures value { result ≡ leg (plan_of self.entry) i }
        ensures within { LegWithin (piers (plan_of self.entry)) result }
    {
        self.legs[i]
    }

    pub fn walk(self, j: usize) -> Walk
        requires { j < length self.walks.now }
        ensures value { result ≡ walk (plan_of self.entry) j }
        ensures within { WalkWithin (piers (plan_of self.entry)) result }
    {
        self.walks[j]
    }

    // The places of the walks from a pier, from the last to the first.
    pub fn walks_from(self, pier: usize) -> Along<'a>
        requires { pier < length self.change.now }
        ensures { places_left result ≡ places self.entry.outgoing.prior.now (slice_index self.entry.outgoing.last.now pier) }
    {
        self.outgoing.of(pier)
    }

    // What a change of boats takes at a pier.
    pub fn change_at(self, pier: usize) -> u64
        requires { pier < length self.change.now }
        ensures value { result ≡ change_at (plan_of self.entry) pier }
        ensures within { result < time_bound }
    {
        self.change[pier]
    }
}

// What stands in a row before a plan is laid out in it.
pub const BLANK_LEG: Leg = Leg {
    run: 0,
    number: 0,
    from: 0,
    to: 0,
    leaves: 0,
    comes: 0,
};

pub const BLANK_WALK: Walk = Walk {
    from: 0,
    to: 0,
    takes: 0,
};
