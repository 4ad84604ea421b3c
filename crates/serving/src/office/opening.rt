// An office is opened with a plan.
ghost use Rattle.serving.specs.Offices.{Opened};

use crate::index::Index;
use crate::office::{MOST_WORDS, Office};
use plan::checking::check;
use plan::refusal::Refusal;
use plan::timetable::Timetable;
use plan::writing::copy_plan;

impl Office {
    // The office of this plan, if the plan may be used.
    pub fn open(plan: &[u64]) -> Result<Office, Refusal>
        ensures { Opened plan.now result }
    {
        let _ = check(plan)?;
        let mut words = [0; MOST_WORDS];
        copy_plan(plan, &mut words);
        let mut index = Index::blank();
        index.fill(Timetable::of(&words));
        Ok(Office { words, index })
    }
}
