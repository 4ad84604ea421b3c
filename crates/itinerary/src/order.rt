// The order of legs.
ghost use Rattle.std.specs.Prelude.{◌≡◌};
ghost use Rattle.itinerary.specs.Order.{before};

use plan::leg::Leg;
use std::cmp::Reverse;

// Of two legs with which two journeys end, the one that comes first: it leaves later, or at the same time and has the
// smaller run, or number.
pub(crate) fn before(a: Leg, b: Leg) -> bool
    ensures { result ≡ before a b }
{
    (Reverse(a.leaves), a.run, a.number) < (Reverse(b.leaves), b.run, b.number)
}
