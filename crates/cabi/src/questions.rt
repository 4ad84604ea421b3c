// Questions and itineraries for C.
ghost use Rattle.std.specs.Prelude.{◌≡◌};
ghost use Rattle.rounds.specs.Entry.{Answered};
ghost use Rattle.itinerary.specs.Named.{JourneyNamed};
ghost use Rattle.cabi.specs.Codes.{Coded};

use crate::code::code;
use itinerary::journey_for::journey;
use marks::mark::Mark;
use rounds::answer::answer;

// The marks that answer a question.
#[unsafe(no_mangle)]
pub extern "C" fn yew_answer(plan: &[u64], question: &[u64], out: &mut [u64]) -> u64
    ensures { Coded (λ r. Answered plan.now question.now out.old
        r out.new) result }
{
    code(answer(plan, question, out))
}

// The itinerary for one of them.
#[unsafe(no_mangle)]
pub extern "C" fn yew_journey(
    plan: &[u64],
    question: &[u64],
    arrival: u64,
    boats: u64,
    out: &mut [u64],
) -> u64
    ensures { Coded (λ r. JourneyNamed plan.now question.now
        (record { arrival = arrival; boats = boats }) out.old r out.new) result }
{
    code(journey(plan, question, Mark { arrival, boats }, out))
}
