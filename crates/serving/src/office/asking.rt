// Questions to an office.
ghost use Rattle.std.specs.Prelude.{IfOk};
ghost use Rattle.plan.specs.Legs.{piers};
ghost use Rattle.rounds.specs.Query.{query_checked};
ghost use Rattle.serving.specs.Offices.{plan_kept};
ghost use Rattle.serving.specs.Responses.{AnsweredWith};

use crate::office::Office;
use crate::response::Response;
use plan::refusal::Refusal;
use std::alloc::{AllocError, Global};

impl Office {
    // The answer to a question, by the plan as it is. Nothing of the plan is checked or sorted again.
    pub fn ask(
        &self,
        heap: Global,
        question: &[u64],
    ) -> Result<Result<Response, Refusal>, AllocError>
        ensures { IfOk result (λ a. AnsweredWith
            (query_checked (piers (plan_kept self.now)) question.now) (plan_kept self.now) a) }
    {
        self.index.ready(self.table()).respond(heap, question)
    }
}
