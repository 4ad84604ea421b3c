// What all trials gave.
use small_plans::trying::Tried;
use std::fmt;

#[derive(Clone, Copy, Default)]
pub struct Tally {
    plans: u64,
    questions: u64,
    journeys: u64,
    marks: u64,
    // Questions with at least two marks.
    with_choice: u64,
    // Questions with a mark that needs a stay.
    with_stay: u64,
    differences: u64,
}

fn count(counter: &mut u64, more: u64) {
    *counter = counter.saturating_add(more);
}

impl Tally {
    pub fn count_plan(&mut self) {
        count(&mut self.plans, 1);
    }

    pub fn count_question(&mut self, tried: &Tried) {
        let needs_stay = tried.reached.iter().any(|reached| reached.needs_stay);
        count(&mut self.questions, 1);
        count(&mut self.journeys, tried.journeys);
        count(&mut self.marks, tried.reached.len() as u64);
        count(&mut self.with_choice, u64::from(tried.reached.len() > 1));
        count(&mut self.with_stay, u64::from(needs_stay));
    }

    pub fn count_difference(&mut self) {
        count(&mut self.differences, 1);
    }

    pub fn differs(&self) -> bool {
        self.differences > 0
    }
}

impl fmt::Display for Tally {
    fn fmt<W: fmt::Write>(&self, f: &mut fmt::Formatter<W>) -> fmt::Result {
        writeln!(f, "plans: {}", self.plans)?;
        writeln!(f, "questions: {}", self.questions)?;
        writeln!(f, "journeys tried: {}", self.journeys)?;
        writeln!(f, "marks: {}", self.marks)?;
        writeln!(f, "questions with at least two marks: {}", self.with_choice)?;
        writeln!(
            f,
            "questions with a mark that needs a stay: {}",
            self.with_stay
        )?;
        write!(f, "answers that differ: {}", self.differences)
    }
}
