// Itineraries that were given, looked at by an office.
ghost use Rattle.updates.specs.Still.{given_checked, WordedBy};
ghost use Rattle.serving.specs.Offices.{plan_kept};

use crate::office::Office;
use plan::refusal::Refusal;
use updates::still::{Word, still_checked};

impl Office {
    // Whether the itinerary still goes, by the plan as it is.
    pub fn look(&self, given: &[u64]) -> Result<Word, Refusal>
        ensures { WordedBy (given_checked given.now) (plan_kept self.now) given.now result }
    {
        still_checked(self.table(), given)
    }
}
