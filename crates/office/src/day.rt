// A file from its first byte to its last: the plan, and the requests to its office.
ghost use Rattle.std.specs.Prelude.{IfOk};
ghost use Rattle.office.specs.Days.{ServedFile};

use crate::reading::{Fault, read_requests};
use files::numbers::read_plan;
use plan::refusal::Refusal;
use serving::response::Response;
use serving::serve::serve;
use std::alloc::{AllocError, Global};

#[derive(Drop)]
pub struct Day {
    pub responses: Vec<Result<Response, Refusal>>,
    // Why the file was not read to its end, if it was not.
    pub fault: Option<Fault>,
}

// What the office says to the requests of a file, up to a fault; or why its plan cannot be used, which is what is told,
// and not a failure.
pub fn serve_file(heap: Global, bytes: &[u8]) -> Result<Result<Day, Refusal>, AllocError>
    ensures { IfOk result (ServedFile bytes.now) }
{
    let plan = read_plan(heap, bytes)?;
    let requests = read_requests(heap, bytes, 4 * plan.len())?;
    match serve(heap, &plan, &requests.all)? {
        Ok(responses) => Ok(Ok(Day {
            responses,
            fault: requests.fault,
        })),
        Err(refusal) => Ok(Err(refusal)),
    }
}
