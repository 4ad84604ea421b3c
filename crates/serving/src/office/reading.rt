// The plan of an office, read by whoever asks it or looks at it.
ghost use Rattle.std.specs.Prelude.{◌≡◌};
ghost use Rattle.serving.specs.Offices.{words_kept};

use crate::office::Office;
use plan::timetable::Timetable;

impl Office {
    // The plan as it is. It was checked, so nothing of it need be checked again.
    pub(crate) fn table(&self) -> Timetable<'_>
        ensures { result.words.now ≡ words_kept self.now }
    {
        Timetable::of(&self.words)
    }
}
