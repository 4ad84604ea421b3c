// The legs and the walks of a plan by the pier they come to, so that what can come before a leg is found without a look
// at the other legs.
ghost use Rattle.std.specs.Prelude.{◌≡◌, ℕ, ◌<◌, ◌≤◌, length, slice_index_or};
ghost use Rattle.plan.specs.Legs.{no_leg, no_walk};
ghost use Rattle.plan.specs.Sound.{Few};
ghost use Rattle.rounds.specs.Layout.{Chains};
ghost use Rattle.rounds.specs.Rows.{plan_of};
ghost use Rattle.itinerary.specs.Arrivals.{leg_to, walk_to, Arriving, Ample};

use plan::leg::Leg;
use plan::walk::Walk;
use rounds::chains::{Chain, chain_by};
use rounds::layout::Layout;

#[derive(Clone, Copy)]
pub struct Arrivals<'a> {
    pub legs: Chain<'a>,
    pub walks: Chain<'a>,
}

pub fn chain_legs(legs: &[Leg], last: &mut [u16], prior: &mut [u16])
    requires few { length legs.now < 65536 }
    requires to { (i : ℕ) → i < length legs.now → (slice_index_or legs.now i no_leg).to < length last.old }
    requires size { length prior.old ≡ length legs.now }
    ensures { Chains (leg_to legs.now) (length legs.now) (length last.new)
        last.new prior.new (length legs.now) }
{
    chain_by(|i| legs[i].to as usize, last, prior);
}

pub fn chain_walks(walks: &[Walk], last: &mut [u16], prior: &mut [u16])
    requires few { length walks.now < 65536 }
    requires to { (j : ℕ) → j < length walks.now → (slice_index_or walks.now j no_walk).to < length last.old }
    requires size { length prior.old ≡ length walks.now }
    ensures { Chains (walk_to walks.now) (length walks.now) (length last.new)
        last.new prior.new (length walks.now) }
{
    chain_by(|j| walks[j].to as usize, last, prior);
}

// Chains the legs and the walks of a plan in the fronts of the lent rows.
pub fn chain_arrivals<'a>(
    layout: Layout,
    last_leg: &'a mut [u16],
    prior_leg: &'a mut [u16],
    last_walk: &'a mut [u16],
    prior_walk: &'a mut [u16],
) -> Arrivals<'a>
    requires few { Few (plan_of layout) }
    requires ample { Ample last_leg.old prior_leg.old last_walk.old prior_walk.old }
    ensures { Arriving (plan_of layout.entry) result }
{
    let piers = layout.change.len();
    let leg_last = &mut last_leg[0..piers];
    let leg_prior = &mut prior_leg[0..layout.legs.len()];
    chain_legs(layout.legs, leg_last, leg_prior);
    let walk_last = &mut last_walk[0..piers];
    let walk_prior = &mut prior_walk[0..layout.walks.len()];
    chain_walks(layout.walks, walk_last, walk_prior);
    Arrivals {
        legs: Chain {
            last: leg_last,
            prior: leg_prior,
        },
        walks: Chain {
            last: walk_last,
            prior: walk_prior,
        },
    }
}
