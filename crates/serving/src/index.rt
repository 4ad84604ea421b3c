// All that an office keeps beside the words of its plan: the plan laid out, and what comes to each pier.
ghost use Rattle.std.specs.Prelude.{◌≡◌, length};

use crate::ready::Ready;
use itinerary::arrivals::{Arrivals, chain_legs, chain_walks};
use plan::bounds::{MOST_LEGS, MOST_PIERS, MOST_WALKS};
use plan::leg::Leg;
use plan::timetable::Timetable;
use plan::walk::Walk;
use rounds::chains::Chain;
use rounds::layout::{BLANK_LEG, BLANK_WALK, Layout};
use rounds::opening::lay_out;

// The rows have room for the largest plan that the check takes, so that no update wants memory. A plan stands at their
// fronts.
#[derive(Drop)]
pub(crate) struct Index {
    legs: [Leg; MOST_LEGS],
    joins: [bool; MOST_LEGS],
    walks: [Walk; MOST_WALKS],
    change: [u64; MOST_PIERS],
    first: [u16; MOST_PIERS],
    link: [u16; MOST_WALKS],
    // The legs and the walks by the pier they come to.
    last_leg: [u16; MOST_PIERS],
    prior_leg: [u16; MOST_LEGS],
    last_walk: [u16; MOST_PIERS],
    prior_walk: [u16; MOST_WALKS],
    ghost long_legs: { length legs ≡ 1024 },
    ghost long_walks: { length walks ≡ 256 },
}

impl Index {
    ghost use Rattle.plan.specs.Sound.{Few, Usable};
    ghost use Rattle.plan.specs.Words.{plan_in};
    ghost use Rattle.rounds.specs.Layout.{Alike};
    ghost use Rattle.rounds.specs.Rows.{plan_of};
    ghost use Rattle.serving.specs.Kept.{Lays};

    // The rows before a plan is laid out in them.
    pub(crate) fn blank() -> Index {
        Index {
            legs: [BLANK_LEG; MOST_LEGS],
            joins: [false; MOST_LEGS],
            walks: [BLANK_WALK; MOST_WALKS],
            change: [0; MOST_PIERS],
            first: [0; MOST_PIERS],
            link: [0; MOST_WALKS],
            last_leg: [0; MOST_PIERS],
            prior_leg: [0; MOST_LEGS],
            last_walk: [0; MOST_PIERS],
            prior_walk: [0; MOST_WALKS],
        }
    }

    // Lays the plan out in the rows, and chains its legs and walks by the pier they come to.
    pub(crate) fn fill(&mut self, table: Timetable<'_>)
        requires few { Few (plan_in table.words.now) }
        ensures { Lays (plan_in table.entry.words.now) self.new }
    {
        let legs = table.legs();
        let walks = table.walks();
        let piers = table.piers();
        let mut key_row = [0; MOST_LEGS];
        let keys = &mut key_row[0..legs];
        table.order_legs(keys);
        let all_legs = &mut self.legs[0..legs];
        let all_walks = &mut self.walks[0..walks];
        lay_out(
            table,
            keys,
            all_legs,
            &mut self.joins[0..legs],
            all_walks,
            &mut self.change[0..piers],
            &mut self.first[0..piers],
            &mut self.link[0..walks],
        );
        chain_legs(
            all_legs,
            &mut self.last_leg[0..piers],
            &mut self.prior_leg[0..legs],
        );
        chain_walks(
            all_walks,
            &mut self.last_walk[0..piers],
            &mut self.prior_walk[0..walks],
        );
    }

    // The plan as it stands in the rows.
    pub(crate) fn ready(&self, table: Timetable<'_>) -> Ready<'_>
        requires usable { Usable table.words.now }
        requires kept { Lays (plan_in table.words.now) self.now }
        ensures { Alike (plan_in table.entry.words.now) (plan_of result.layout) }
    {
        let legs = table.legs();
        let walks = table.walks();
        let piers = table.piers();
        let outgoing = Chain {
            last: &self.first[0..piers],
            prior: &self.link[0..walks],
        };
        let layout = Layout {
            legs: &self.legs[0..legs],
            joins: &self.joins[0..legs],
            walks: &self.walks[0..walks],
            outgoing,
            change: &self.change[0..piers],
        };
        let coming_legs = Chain {
            last: &self.last_leg[0..piers],
            prior: &self.prior_leg[0..legs],
        };
        let coming_walks = Chain {
            last: &self.last_walk[0..piers],
            prior: &self.prior_walk[0..walks],
        };
        Ready {
            layout,
            arrivals: Arrivals {
                legs: coming_legs,
                walks: coming_walks,
            },
        }
    }
}
