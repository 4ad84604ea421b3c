// The answer to a question in full: its marks, and the itinerary for each.
ghost use Rattle.std.specs.Prelude.{◌≤◌, IfOk, Ok};
ghost use Rattle.plan.specs.Legs.{piers};
ghost use Rattle.marks.specs.declared.mark.Mark.{Mark};
ghost use Rattle.marks.specs.Marks.{Among};
ghost use Rattle.rounds.specs.Query.{query_checked};
ghost use Rattle.rounds.specs.Rows.{plan_of};
ghost use Rattle.rounds.specs.Answers.{Asked};
ghost use Rattle.itinerary.specs.Tracing.{Marked};
ghost use Rattle.serving.specs.Responses.{Itineraries, AnsweredWith};

use crate::ready::Ready;
use crate::response::Response;
use itinerary::search::Search;
use marks::mark::Mark;
use plan::bounds::MOST_LEGS;
use plan::refusal::Refusal;
use rounds::query::{Query, read_query};
use rounds::workspace::Workspace;
use std::alloc::{AllocError, Global};

// The itinerary for each mark of an answer, one behind the other.
fn name_marks(heap: Global, search: Search, marks: &[Mark]) -> Result<Vec<u64>, AllocError>
    requires { (m : Mark) → Among m marks.now →
        Marked (plan_of search.layout) search.question search.level.now m }
    ensures { IfOk result (λ v. Itineraries (plan_of search.entry.layout) search.entry.question marks.now v.items) }
{
    let mut names = Vec::new(heap);
    let mut row = [0; 1 + 2 * MOST_LEGS];
    for mark in marks {
        let count = search.write_journey(*mark, &mut row) as usize;
        names.extend_from_slice(&row[0..1 + 2 * count])?;
    }
    Ok(names)
}

impl Ready<'_> {
    // The answer to a question that was read, with working rows on the stack.
    fn answer(self, heap: Global, query: Query) -> Result<Response, AllocError>
        requires asked { Asked (plan_of self.layout) query.question }
        requires most { query.most ≤ 8 }
        ensures { IfOk result (λ a. AnsweredWith (Ok query) (plan_of self.entry.layout) (Ok a)) }
    {
        let mut work = Workspace::new();
        let front = work.answer(self.layout, query);
        let search = Search {
            layout: self.layout,
            arrivals: self.arrivals,
            question: query.question,
            level: work.levels(self.layout.legs.len()),
        };
        let names = name_marks(heap, search, front.marks())?;
        Ok(Response::Marks(front, names))
    }

    // What is said to a question in numbers.
    pub(crate) fn respond(
        self,
        heap: Global,
        question: &[u64],
    ) -> Result<Result<Response, Refusal>, AllocError>
        ensures { IfOk result (λ a. AnsweredWith (query_checked (piers (plan_of self.entry.layout)) question.now)
            (plan_of self.entry.layout) a) }
    {
        match read_query(self.layout.change.len(), question) {
            Ok(query) => Ok(Ok(self.answer(heap, query)?)),
            Err(refusal) => Ok(Err(refusal)),
        }
    }
}
