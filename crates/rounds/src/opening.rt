// A plan is laid out for questions: its legs by run and number, its walks chained by the pier they go from.
ghost use Rattle.std.specs.Prelude.{◌≡◌, ℕ, suc, ◌<◌, ◌≤◌, false, length, slice_index, slice_index_or, slice_set};
ghost use Rattle.plan.specs.Legs.{no_walk, piers};
ghost use Rattle.plan.specs.Words.{plan_in};
ghost use Rattle.plan.specs.Sound.{Few};
ghost use Rattle.plan.specs.Keys.{Ordered};
ghost use Rattle.rounds.specs.Layout.{Chains, Laid, Alike, walk_from, is_joined};
ghost use Rattle.rounds.specs.Opened.{plan_of, Room, Roomy, LegsLaid};

use super::chains::{Chain, chain_by};
use super::layout::Layout;
use journey::steps::stays;
use plan::leg::Leg;
use plan::order::place_of;
use plan::timetable::Timetable;
use plan::walk::Walk;

// One may stay aboard for the leg `i` from the leg right before it.
fn is_joined(legs: &[Leg], i: usize) -> bool
    requires within { i < length legs.now }
    ensures { result ≡ is_joined legs.now i }
{
    i > 0 && legs[i].runs() && stays(legs[i - 1], legs[i])
}

// The legs in the order of their keys, and for each whether one may stay aboard for it. It is one pass, while the leg is
// at hand.
fn fill_legs(table: Timetable, keys: &[u64], legs: &mut [Leg], joins: &mut [bool])
    requires ordered { Ordered (plan_in table.words.now) keys.now }
    requires few { length (plan_in table.words.now).legs ≤ 65536 }
    requires size { length legs.old ≡ length (plan_in table.words.now).legs }
    requires joins { length joins.old ≡ length legs.old }
    ensures legs { LegsLaid (plan_in table.entry.words.now) keys.now legs.new }
    ensures joins { (i : ℕ) → i < length legs.new → slice_index_or joins.new i false ≡ is_joined legs.new i }
{
    // By place, since both rows are written, and the leg before is looked at.
    for c in 0..legs.len() {
        legs[c] = table.leg(place_of(keys[c]));
        joins[c] = is_joined(legs, c);
    }
}

fn fill_walks(table: Timetable, walks: &mut [Walk])
    requires size { length walks.old ≡ length (plan_in table.words.now).walks }
    ensures { walks.new ≡ (plan_in table.entry.words.now).walks }
{
    for (j, walk) in walks.iter_mut().enumerate() {
        *walk = table.walk(j);
    }
}

fn fill_changes(table: Timetable, change: &mut [u64])
    requires size { length change.old ≡ piers (plan_in table.words.now) }
    ensures { change.new ≡ (plan_in table.entry.words.now).change }
{
    for (pier, minutes) in change.iter_mut().enumerate() {
        *minutes = table.change(pier);
    }
}

// Chains the walks by the pier they go from.
fn link_walks(walks: &[Walk], first: &mut [u16], link: &mut [u16])
    requires few { length walks.now < 65536 }
    requires from { (j : ℕ) → j < length walks.now → (slice_index_or walks.now j no_walk).from < length first.old }
    requires size { length link.old ≡ length walks.now }
    ensures { Chains (walk_from walks.now) (length walks.now) (length first.new) first.new link.new (length walks.now) }
{
    chain_by(|j| walks[j].from as usize, first, link);
}

// Lays the plan out in the lent rows. The keys of its legs are those that the check left in order.
pub fn lay_out(
    table: Timetable,
    keys: &[u64],
    legs: &mut [Leg],
    joins: &mut [bool],
    walks: &mut [Walk],
    change: &mut [u64],
    first: &mut [u16],
    link: &mut [u16],
)
    requires ordered { Ordered (plan_in table.words.now) keys.now }
    requires room { Room (plan_in table.words.now)
        legs.old joins.old walks.old change.old first.old link.old }
    ensures legs { LegsLaid (plan_in table.entry.words.now) keys.now legs.new }
    ensures alike { Alike (plan_in table.entry.words.now)
        (plan_of legs.new walks.new change.new) }
    ensures laid { Laid (plan_of legs.new walks.new change.new)
        joins.new first.new link.new }
{
    fill_legs(table, keys, legs, joins);
    fill_walks(table, walks);
    fill_changes(table, change);
    link_walks(walks, first, link);
}

// The rows to lay a plan out in, of the lengths that the plan has.
pub struct Rows<'a> {
    pub legs: &'a mut [Leg],
    pub joins: &'a mut [bool],
    pub walks: &'a mut [Walk],
    pub first: &'a mut [u16],
    pub link: &'a mut [u16],
    pub change: &'a mut [u64],
}

impl<'a> Rows<'a> {
    // The plan laid out in these rows.
    pub fn lay_out(self, table: Timetable, keys: &[u64]) -> Layout<'a>
        requires ordered { Ordered (plan_in table.words.now) keys.now }
        requires room { Room (plan_in table.words.now) self.legs.now self.joins.now self.walks.now
            self.change.now self.first.now self.link.now }
        ensures legs { LegsLaid (plan_in table.entry.words.now) keys.now result.legs.now }
        ensures alike { Alike (plan_in table.entry.words.now)
            (plan_of result.legs.now result.walks.now result.change.now) }
    {
        let Rows {
            legs,
            joins,
            walks,
            first,
            link,
            change,
        } = self;
        lay_out(table, keys, legs, joins, walks, change, first, link);
        Layout {
            legs,
            joins,
            walks,
            outgoing: Chain {
                last: first,
                prior: link,
            },
            change,
        }
    }

    // The plan laid out in the fronts of these rows, which may be longer than the plan asks.
    pub fn lay_out_in_front(self, table: Timetable, keys: &[u64]) -> Layout<'a>
        requires ordered { Ordered (plan_in table.words.now) keys.now }
        requires few { Few (plan_in table.words.now) }
        requires ample { Roomy (plan_in table.words.now) self.legs.now self.joins.now self.walks.now
            self.change.now self.first.now self.link.now }
        ensures alike { Alike (plan_in table.entry.words.now)
            (plan_of result.legs.now result.walks.now result.change.now) }
        ensures few { Few (plan_of result.legs.now result.walks.now result.change.now) }
    {
        let Rows {
            legs,
            joins,
            walks,
            first,
            link,
            change,
        } = self;
        let leg_count = table.legs();
        let walk_count = table.walks();
        let pier_count = table.piers();
        let fronts = Rows {
            legs: &mut legs[0..leg_count],
            joins: &mut joins[0..leg_count],
            walks: &mut walks[0..walk_count],
            first: &mut first[0..pier_count],
            link: &mut link[0..walk_count],
            change: &mut change[0..pier_count],
        };
        fronts.lay_out(table, keys)
    }
}
