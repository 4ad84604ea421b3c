// The requests of a file.
ghost use Rattle.std.specs.Prelude.{◌≡◌, IfOk, Some, MatchOption};
ghost use Rattle.office.specs.Faults.{fault_text};
ghost use Rattle.office.specs.Requests.{Made, Cut, Read};

use crate::kind::Kind;
use files::numbers::numbers;
use plan::leg::Leg;
use plan::name::LegName;
use serving::request::Request;
use std::alloc::{AllocError, Global};
use std::fmt;
use updates::update::Update;

// Why a file cannot be read on, and at which of its bytes.
#[derive(Clone, Copy)]
pub enum Fault {
    // No request has this byte for its kind.
    Unknown { place: usize, byte: u8 },
    // An update that the file's end cuts short.
    CutShort { place: usize },
}

impl fmt::Display for Fault {
    ghost output = { λ fault. Some (fault_text fault) };

    fn fmt<W: fmt::Write>(&self, f: &mut fmt::Formatter<W>) -> fmt::Result {
        match *self {
            Fault::Unknown { place, byte } => write!(
                f,
                "byte {place}: there is no request {byte} yet"
            ),
            Fault::CutShort { place } => write!(f, "byte {place}: the update is cut short"),
        }
    }
}

#[derive(Drop)]
pub struct Requests {
    pub all: Vec<Request>,
    // Why there are no more, if it is not the file's end.
    pub fault: Option<Fault>,
}

// The request of this kind with these numbers, or nothing where an update is cut short.
fn request_of(kind: Kind, numbers: Vec<u64>) -> Option<Request>
    ensures { MatchOption result (Cut kind numbers.items) (Made kind numbers.items) }
{
    match kind {
        Kind::Question => Some(Request::Ask(numbers)),
        Kind::Delay => match numbers.as_slice() {
            &[run, number, minutes] => Some(Request::Apply(Update::Delay {
                from: LegName { run, number },
                minutes,
            })),
            _ => None,
        },
        Kind::Cancel => match numbers.as_slice() {
            &[run, number] => Some(Request::Apply(Update::Cancel(LegName { run, number }))),
            _ => None,
        },
        Kind::Extra => match numbers.as_slice() {
            &[run, number, from, to, leaves, comes] => Some(Request::Apply(Update::Extra(Leg {
                run,
                number,
                from,
                to,
                leaves,
                comes,
            }))),
            _ => None,
        },
        Kind::Still => Some(Request::Look(numbers)),
    }
}

// The requests of a file from a byte on, to its end or to the first fault. A question or an itinerary that the file's end
// cuts short has fewer numbers.
pub fn read_requests(heap: Global, bytes: &[u8], start: usize) -> Result<Requests, AllocError>
    ensures { IfOk result (Read bytes.now start) }
{
    let mut all = Vec::new(heap);
    let mut at = start;
    // By place, since a fault is told by the byte at which it stands.
    while at < bytes.len() {
        let place = at;
        let byte = bytes[at];
        let Ok(kind) = Kind::try_from(byte) else {
            return Ok(Requests {
                all,
                fault: Some(Fault::Unknown { place, byte }),
            });
        };
        let behind = &bytes[at + 1..];
        let size = kind.size(behind);
        let Some(request) = request_of(kind, numbers(heap, behind, size)?) else {
            return Ok(Requests {
                all,
                fault: Some(Fault::CutShort { place }),
            });
        };
        all.push(request)?;
        at += 1 + behind.len().min(4 * size);
    }
    Ok(Requests { all, fault: None })
}
