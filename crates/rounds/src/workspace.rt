// Working rows for questions, long enough for any plan that the check takes. What they hold before a question is of no
// account.
use crate::asking::answer_laid;
use crate::layout::Layout;
use crate::query::Query;
use marks::front::Front;
use plan::bounds::{MOST_LEGS, MOST_PIERS};

#[derive(Drop)]
pub struct Workspace {
    // For each leg the least boats with which one can be aboard of it, 0 where nobody can: a byte, where an Option takes two.
    level: [u8; MOST_LEGS],
    seed: [u8; MOST_LEGS],
    waits: [u16; MOST_LEGS],
}

impl Workspace {
    ghost use Rattle.std.specs.Prelude.{◌≡◌, ◌≤◌, length, take, All};
    ghost use Rattle.plan.specs.Sound.{Few};
    ghost use Rattle.journey.specs.Aboard.{Aboard};
    ghost use Rattle.marks.specs.Fronts.{marks_of};
    ghost use Rattle.rounds.specs.Rows.{plan_of};
    ghost use Rattle.rounds.specs.Levels.{Levels};
    ghost use Rattle.rounds.specs.Answers.{Answer, Asked};

    // Nobody is aboard of any leg yet.
    pub fn new() -> Workspace
        ensures { All (λ boats. boats ≡ 0) result.level }
    {
        Workspace {
            level: [0; MOST_LEGS],
            seed: [0; MOST_LEGS],
            waits: [0; MOST_LEGS],
        }
    }

    // The answer to a question, and in the front of the levels for each leg the least boats of a journey that ends with it.
    pub fn answer(&mut self, layout: Layout, query: Query) -> Front
        requires few { Few (plan_of layout) }
        requires asked { Asked (plan_of layout) query.question }
        requires most { query.most ≤ 8 }
        ensures answer { Answer (plan_of layout.entry) query.most query.question (marks_of result) }
        ensures levels { Levels (Aboard (plan_of layout.entry) query.question.from query.question.time)
            (plan_of layout.entry) query.most (take (length layout.entry.legs.now) self.new.level) }
    {
        let legs = layout.legs.len();
        let piers = layout.change.len();
        // Each a row of its own, which nobody reads afterwards: a row is copied to another after each round, and of two
        // parts of one struct it would not be known that they lie apart.
        let mut ready = [0; MOST_PIERS];
        let mut later = [0; MOST_PIERS];
        let mut arrived = [0; MOST_PIERS];
        answer_laid(
            layout,
            query.question,
            query.most,
            &mut self.level[0..legs],
            &mut self.seed[0..legs],
            &mut ready[0..piers],
            &mut later[0..piers],
            &mut arrived[0..piers],
            &mut self.waits[0..legs],
        )
    }

    // The levels of so many legs.
    pub fn levels(&self, legs: usize) -> &[u8]
        requires { legs ≤ 1024 }
        ensures value { result.now ≡ take legs self.now.level }
        ensures long { length result.now ≡ legs }
    {
        &self.level[0..legs]
    }
}
