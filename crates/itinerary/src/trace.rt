// The itinerary for a mark of the answer, over a plan that is laid out.
ghost use Rattle.std.specs.Prelude.{◌≡◌, ◌≤◌, length};
ghost use Rattle.rounds.specs.Rows.{plan_of};
ghost use Rattle.itinerary.specs.Order.{Itinerary};
ghost use Rattle.itinerary.specs.Tracing.{Marked, legs_from, Places};

use crate::search::Search;
use marks::mark::Mark;

impl Search<'_> {
    // Writes the places of the legs of the itinerary into the row, so that the last leg stands at the end of the row;
    // where in the row the first stands. The levels are those that the answer to the question left.
    //
    // The search goes back from the last leg, and each time takes the leg that comes first: since the levels are exact,
    // every such choice can be completed. Each leg has a lower level than the next or stands before it, so none comes
    // twice, and a row with a place for each leg is long enough.
    pub(crate) fn trace(self, mark: Mark, row: &mut [u16]) -> usize
        requires room { length row.old ≡ length self.layout.legs.now }
        requires marked { Marked (plan_of self.layout) self.question self.level.now mark }
        ensures within { result ≤ length row.new }
        ensures places { Places (length self.entry.layout.legs.now) result row.new }
        ensures itinerary { Itinerary (plan_of self.entry.layout) self.entry.question mark.arrival mark.boats
            (legs_from (plan_of self.entry.layout) result row.new) }
    {
        let mut at = row.len();
        let mut next = self.find(|x| self.is_final(mark, x), self.question.to as usize);
        'back: while let Some(i) = next {
            at -= 1;
            row[at] = i as u16;
            next = self.step_back(i);
        }
        at
    }
}
