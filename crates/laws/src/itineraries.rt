// The laws of the order of journeys, and of itineraries.
ghost use Rattle.laws.specs.ItineraryLaws.{JourneysOrdered, OneItinerary, AlwaysAnItinerary};
ghost use Rattle.laws.specs.ItineraryLaws.{ItineraryReaches, MarksOnce};
ghost use Rattle.laws.specs.OrderExamples.{OrderExamples};

// Of two journeys of a plan one comes first, unless they are the same, and never both.
pub fn journeys_are_ordered() -> u8
    ensures { JourneysOrdered }
{
    0
}

// A mark has at most one itinerary.
pub fn a_mark_has_one_itinerary() -> u8
    ensures { OneItinerary }
{
    0
}

// Each mark of an answer has an itinerary, in a plan of any size.
pub fn a_mark_has_an_itinerary() -> u8
    ensures { AlwaysAnItinerary }
{
    0
}

// An itinerary is a journey that reaches the mark.
pub fn an_itinerary_reaches_its_mark() -> u8
    ensures { ItineraryReaches }
{
    0
}

// A journey that reaches a mark of the answer names no leg twice.
pub fn a_mark_needs_no_leg_twice() -> u8
    ensures { MarksOnce }
{
    0
}

// Which of two journeys comes first, on examples.
pub fn order_examples_stand() -> u8
    ensures { OrderExamples }
{
    0
}
