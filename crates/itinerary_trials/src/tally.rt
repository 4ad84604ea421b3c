// What all trials gave.
use small_plans::trying::{Reached, Tried};
use std::fmt;

#[derive(Clone, Copy, Default)]
pub struct Tally {
    plans: u64,
    questions: u64,
    journeys: u64,
    marks: u64,
    // Questions with at least two marks.
    with_two: u64,
    // Marks that more than one journey reaches.
    with_choice: u64,
    // Marks whose itinerary stays aboard.
    with_stay: u64,
    answers_differ: u64,
    itineraries_differ: u64,
}

fn count(counter: &mut u64, more: u64) {
    *counter = counter.saturating_add(more);
}

impl Tally {
    pub fn count_plan(&mut self) {
        count(&mut self.plans, 1);
    }

    pub fn count_question(&mut self, tried: &Tried) {
        count(&mut self.questions, 1);
        count(&mut self.journeys, tried.journeys);
        count(&mut self.with_two, u64::from(tried.reached.len() > 1));
    }

    pub fn count_mark(&mut self, reached: &Reached) {
        count(&mut self.marks, 1);
        count(&mut self.with_choice, u64::from(reached.ways > 1));
        count(&mut self.with_stay, u64::from(reached.itinerary.stays));
    }

    pub fn count_answer(&mut self, agrees: bool) {
        count(&mut self.answers_differ, u64::from(!agrees));
    }

    pub fn count_itinerary(&mut self, agrees: bool) {
        count(&mut self.itineraries_differ, u64::from(!agrees));
    }

    pub fn differs(&self) -> bool {
        self.answers_differ > 0 || self.itineraries_differ > 0
    }
}

impl fmt::Display for Tally {
    fn fmt<W: fmt::Write>(&self, f: &mut fmt::Formatter<W>) -> fmt::Result {
        writeln!(f, "plans: {}", self.plans)?;
        writeln!(f, "questions: {}", self.questions)?;
        writeln!(f, "journeys tried: {}", self.journeys)?;
        writeln!(f, "marks: {}", self.marks)?;
        writeln!(f, "questions with at least two marks: {}", self.with_two)?;
        writeln!(
            f,
            "marks that more than one journey reaches: {}",
            self.with_choice
        )?;
        writeln!(
            f,
            "itineraries on which one stays aboard: {}",
            self.with_stay
        )?;
        writeln!(f, "answers that differ: {}", self.answers_differ)?;
        write!(f, "itineraries that differ: {}", self.itineraries_differ)
    }
}
