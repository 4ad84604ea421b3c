// Updates of an office's plan.
ghost use Rattle.std.specs.Prelude.{◌≡◌};
ghost use Rattle.updates.specs.Updates.{after, update_checked};
ghost use Rattle.serving.specs.Offices.{plan_kept};
ghost use Rattle.serving.specs.Runs.{if_done};

use crate::office::Office;
use plan::refusal::Refusal;
use plan::timetable::Timetable;
use updates::applying::apply_checked;
use updates::update::Update;

impl Office {
    // The plan after the update, in its place; or why it is refused, and then the plan is as it was.
    pub fn apply(&mut self, update: Update) -> Result<(), Refusal>
        ensures says { result ≡ update_checked (plan_kept self.old) update }
        ensures plan { plan_kept self.new ≡ if_done (update_checked (plan_kept self.old) update)
            (after (plan_kept self.old) update) (plan_kept self.old) }
    {
        let Office { words, index } = self;
        apply_checked(words, update)?;
        index.fill(Timetable::of(words));
        Ok(())
    }
}
