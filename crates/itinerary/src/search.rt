// A search for the legs of itineraries.
ghost use Rattle.std.specs.Prelude.{◌≡◌, length};
ghost use Rattle.plan.specs.Sound.{Few};
ghost use Rattle.journey.specs.Journeys.{NamedOnce};
ghost use Rattle.rounds.specs.Rows.{plan_of};
ghost use Rattle.rounds.specs.Answers.{Asked};
ghost use Rattle.itinerary.specs.Arrivals.{Arriving};

use crate::arrivals::Arrivals;
use journey::question::Question;
use rounds::layout::Layout;

// A plan that is laid out, what comes to each of its piers, a question about it, and for each leg the least boats of a
// journey that ends with it, as the answer to the question left them.
#[derive(Clone, Copy)]
pub struct Search<'a> {
    pub layout: Layout<'a>,
    pub arrivals: Arrivals<'a>,
    pub question: Question,
    pub level: &'a [u8],
    pub ghost few: { Few (plan_of layout) },
    pub ghost once: { NamedOnce layout.legs.now },
    pub ghost arriving: { Arriving (plan_of layout) arrivals },
    pub ghost asked: { Asked (plan_of layout) question },
    pub ghost levels: { length level.now ≡ length layout.legs.now },
}
