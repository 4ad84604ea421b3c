// A plan that is ready to be asked.
ghost use Rattle.plan.specs.Sound.{Few};
ghost use Rattle.journey.specs.Journeys.{NamedOnce};
ghost use Rattle.rounds.specs.Rows.{plan_of};
ghost use Rattle.itinerary.specs.Arrivals.{Arriving};

use itinerary::arrivals::Arrivals;
use rounds::layout::Layout;

#[derive(Clone, Copy)]
pub(crate) struct Ready<'a> {
    // The plan, laid out for questions.
    pub(crate) layout: Layout<'a>,
    // What comes to each pier, for the way back of an itinerary.
    pub(crate) arrivals: Arrivals<'a>,
    ghost arriving: { Arriving (plan_of layout) arrivals },
    ghost few: { Few (plan_of layout) },
    ghost once: { NamedOnce layout.legs.now },
}
