// A plan, and requests to its office: all of them, from the first to the last.
ghost use Rattle.std.specs.Prelude.{IfOk};
ghost use Rattle.serving.specs.Runs.{ServedFrom};

use crate::office::Office;
use crate::request::Request;
use crate::response::Response;
use plan::refusal::Refusal;
use std::alloc::{AllocError, Global};

// What the office of the plan says to the requests, in order; or why the plan cannot be used. A refusal is what is said,
// and not a failure: only memory can be wanting.
pub fn serve(
    heap: Global,
    plan: &[u64],
    requests: &[Request],
) -> Result<Result<Vec<Result<Response, Refusal>>, Refusal>, AllocError>
    ensures { IfOk result (λ o. ServedFrom plan.now requests.now o) }
{
    match Office::open(plan) {
        Ok(mut office) => Ok(Ok(office.serve(heap, requests)?)),
        Err(refusal) => Ok(Err(refusal)),
    }
}
