// The itinerary for a mark of the answer to a question, over lent memory.
ghost use Rattle.std.specs.Prelude.{◌≡◌, ◌≤◌, length};
ghost use Rattle.plan.specs.Legs.{piers};
ghost use Rattle.plan.specs.Words.{plan_in};
ghost use Rattle.plan.specs.Sound.{Few};
ghost use Rattle.plan.specs.Keys.{Ordered};
ghost use Rattle.journey.specs.Journeys.{NamedOnce};
ghost use Rattle.rounds.specs.Query.{query_checked};
ghost use Rattle.rounds.specs.Rows.{plan_of};
ghost use Rattle.rounds.specs.Answers.{Asked};
ghost use Rattle.itinerary.specs.Tracing.{Marked};
ghost use Rattle.itinerary.specs.Named.{Written, Named, NamedBy, JourneyNamed};

use crate::arrivals::chain_arrivals;
use crate::search::Search;
use crate::telling::name_legs;
use journey::question::Question;
use marks::mark::Mark;
use plan::bounds::{MOST_LEGS, MOST_PIERS, MOST_WALKS};
use plan::checking::check_in_order;
use plan::refusal::Refusal;
use plan::timetable::Timetable;
use rounds::layout::{BLANK_LEG, BLANK_WALK, Layout};
use rounds::opening::Rows;
use rounds::query::{Query, read_query};
use rounds::workspace::Workspace;

// The count and two numbers for each leg that a plan may have: a row of so many numbers has room for any itinerary.
const ROOM: usize = 1 + 2 * MOST_LEGS;

impl Search<'_> {
    // Writes the itinerary for a mark of the answer into the row; how many legs it has.
    pub fn write_journey(self, mark: Mark, out: &mut [u64]) -> u64
        requires marked { Marked (plan_of self.layout) self.question self.level.now mark }
        requires room { 2049 ≤ length out.old }
        ensures { Written (plan_of self.entry.layout) self.entry.question mark out.old result out.new }
    {
        let legs = self.layout.legs;
        let mut place_row = [0u16; MOST_LEGS];
        let places = &mut place_row[..legs.len()];
        let at = self.trace(mark, places);
        let named = &places[at..];
        name_legs(legs, named, out);
        named.len() as u64
    }
}

// The same, where it is not known yet what comes to each pier.
pub fn write_journey<'a>(
    layout: Layout<'a>,
    level: &'a [u8],
    q: Question,
    mark: Mark,
    out: &mut [u64],
) -> u64
    requires few { Few (plan_of layout) }
    requires once { NamedOnce layout.legs.now }
    requires asked { Asked (plan_of layout) q }
    requires levels { length level.now ≡ length layout.legs.now }
    requires marked { Marked (plan_of layout) q level.now mark }
    requires room { 2049 ≤ length out.old }
    ensures { Written (plan_of layout.entry) q mark out.old result out.new }
{
    let mut last_leg = [0u16; MOST_PIERS];
    let mut prior_leg = [0u16; MOST_LEGS];
    let mut last_walk = [0u16; MOST_PIERS];
    let mut prior_walk = [0u16; MOST_WALKS];
    let arrivals = chain_arrivals(
        layout,
        &mut last_leg,
        &mut prior_leg,
        &mut last_walk,
        &mut prior_walk,
    );
    let search = Search {
        layout,
        arrivals,
        question: q,
        level,
    };
    search.write_journey(mark, out)
}

// The itinerary for a mark, over a plan that is laid out, with working rows on the stack. The question is answered first:
// that says whether the mark is one of the answer's, and leaves the levels that the legs are traced by.
fn name_journey(layout: Layout, query: Query, mark: Mark, out: &mut [u64]) -> Result<u64, Refusal>
    requires few { Few (plan_of layout) }
    requires once { NamedOnce layout.legs.now }
    requires asked { Asked (plan_of layout) query.question }
    requires most { query.most ≤ 8 }
    ensures { Named (plan_of layout.entry) query mark out.old result out.new }
{
    if out.len() < ROOM {
        return Err(Refusal::ShortRow(out.len() as u64));
    }
    let mut work = Workspace::new();
    let front = work.answer(layout, query);
    if !front.marks().contains(&mark) {
        return Err(Refusal::NoMark(mark.boats));
    }
    let level = work.levels(layout.legs.len());
    Ok(write_journey(layout, level, query.question, mark, out))
}

// The itinerary for a mark, over a plan that was laid out before: nothing of the plan is checked again.
pub fn journey_opened(
    layout: Layout,
    question: &[u64],
    mark: Mark,
    out: &mut [u64],
) -> Result<u64, Refusal>
    requires few { Few (plan_of layout) }
    requires once { NamedOnce layout.legs.now }
    ensures { NamedBy (query_checked (piers (plan_of layout.entry)) question.now)
        (plan_of layout.entry) mark out.old result out.new }
{
    let query = read_query(layout.change.len(), question)?;
    name_journey(layout, query, mark, out)
}

// The itinerary for a mark, over a checked plan: lays it out in rows on the stack. The rows are its own, since the check
// covers no struct that owns rows and lends a layout of them to be written.
fn journey_checked(
    table: Timetable,
    keys: &[u64],
    question: &[u64],
    mark: Mark,
    out: &mut [u64],
) -> Result<u64, Refusal>
    requires ordered { Ordered (plan_in table.words.now) keys.now }
    requires few { Few (plan_in table.words.now) }
    requires once { NamedOnce (plan_in table.words.now).legs }
    ensures { NamedBy (query_checked (piers (plan_in table.entry.words.now)) question.now)
        (plan_in table.entry.words.now) mark out.old result out.new }
{
    let mut legs = [BLANK_LEG; MOST_LEGS];
    let mut joins = [false; MOST_LEGS];
    let mut walks = [BLANK_WALK; MOST_WALKS];
    let mut first = [0u16; MOST_PIERS];
    let mut link = [0u16; MOST_WALKS];
    let mut change = [0u64; MOST_PIERS];
    let rows = Rows {
        legs: &mut legs,
        joins: &mut joins,
        walks: &mut walks,
        first: &mut first,
        link: &mut link,
        change: &mut change,
    };
    journey_opened(rows.lay_out_in_front(table, keys), question, mark, out)
}

// The itinerary for a mark of the answer to a question about a plan in lent memory, written into the lent row: how many
// legs it has, and the run and the number of each. Where it is refused, the row is as it was.
pub fn journey(plan: &[u64], question: &[u64], mark: Mark, out: &mut [u64]) -> Result<u64, Refusal>
    ensures { JourneyNamed plan.now question.now mark out.old
        result out.new }
{
    let mut keys = [0u64; MOST_LEGS];
    let _ = check_in_order(plan, &mut keys)?;
    let table = Timetable::of(plan);
    let legs = table.legs();
    journey_checked(table, &keys[..legs], question, mark, out)
}
