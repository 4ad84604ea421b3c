// Itineraries that were given before, for C.
ghost use Rattle.std.specs.Prelude.{◌≡◌};
ghost use Rattle.cabi.specs.WordCodes.{word_code, word_left, WordTold};

use crate::code::refusal_code;
use plan::refusal::Refusal;
use updates::still::{Word, still};

// Says the word: 0 and the lent number, or the refusal, and then that number is as it was.
fn say(said: Result<Word, Refusal>, word: &mut u64) -> u64
    ensures code { result ≡ word_code said }
    ensures left { word.new ≡ word_left said word.old }
{
    match said {
        Ok(goes) => {
            *word = u64::from(goes == Word::Still);
            0
        }
        Err(refusal) => refusal_code(refusal),
    }
}

// Whether an itinerary still goes.
#[unsafe(no_mangle)]
pub extern "C" fn yew_still(plan: &[u64], given: &[u64], word: &mut u64) -> u64
    ensures { WordTold plan.now given.now word.old result word.new }
{
    say(still(plan, given), word)
}
