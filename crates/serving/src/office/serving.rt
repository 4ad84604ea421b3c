// Requests to an office, one after the other.
ghost use Rattle.std.specs.Prelude.{◌≡◌, true, length, is_ok, IfOk};
ghost use Rattle.serving.specs.Offices.{plan_kept};
ghost use Rattle.serving.specs.Runs.{Right, plan_next, plan_at, Moment, Served};

use crate::office::Office;
use crate::request::Request;
use crate::response::Response;
use plan::refusal::Refusal;
use std::alloc::{AllocError, Global};

impl Office {
    // What the office says to a request; only an update changes the plan.
    fn respond(
        &mut self,
        heap: Global,
        request: &Request,
    ) -> Result<Result<Response, Refusal>, AllocError>
        ensures right { IfOk result (λ a. Right (plan_kept self.old) request.now a) }
        ensures plan { plan_kept self.new ≡ plan_next (plan_kept self.old) request.now }
    {
        match request {
            Request::Ask(question) => self.ask(heap, question),
            Request::Apply(update) => Ok(self.apply(*update).map(|()| Response::Updated)),
            Request::Look(given) => Ok(self.look(given).map(Response::Looked)),
        }
    }

    // Does all the requests, in order. Each response is the right one by the plan as it is at that moment.
    pub fn serve(
        &mut self,
        heap: Global,
        requests: &[Request],
    ) -> Result<Vec<Result<Response, Refusal>>, AllocError>
        ensures served { IfOk result (λ v. Served (plan_kept self.old) requests.now v.items) }
        ensures plan { is_ok result ≡ true → plan_kept self.new
            ≡ plan_at (plan_kept self.old) requests.now (length requests.now) }
        ensures moment { Moment (plan_kept self.old) requests.now (plan_kept self.new) }
    {
        let mut responses = Vec::new(heap);
        for request in requests {
            let response = self.respond(heap, request)?;
            responses.push(response)?;
        }
        Ok(responses)
    }
}
