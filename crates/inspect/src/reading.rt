// Journeys in a file.
ghost use Rattle.std.specs.Prelude.{◌≡◌, ◌+◌, ◌*◌, ◌≤◌, length, IfOk};
ghost use Rattle.inspect.specs.Told.{names_in, Read};

use files::numbers::number_at;
use journey::question::Question;
use plan::name::LegName;
use std::alloc::{AllocError, Global};

// A journey that somebody tells: the question that it is to answer, and the legs that it goes by.
#[derive(Drop)]
pub struct Told {
    pub question: Question,
    pub legs: Vec<LegName>,
}

// The names of so many legs.
fn read_names(heap: Global, bytes: &[u8], count: usize) -> Result<Vec<LegName>, AllocError>
    requires { 8 * count ≤ length bytes.now }
    ensures { IfOk result (λ v. v.items ≡ names_in count bytes.now) }
{
    bytes[..8 * count]
        .chunks_exact(8)
        .map(|name| LegName {
            run: number_at(name, 0),
            number: number_at(name, 4),
        })
        .collect(heap)
}

// The journey that these bytes begin with, or nothing where they are cut short.
pub fn read_told(heap: Global, bytes: &[u8]) -> Result<Option<Told>, AllocError>
    ensures { IfOk result (Read bytes.now) }
{
    if bytes.len() < 16 {
        return Ok(None);
    }
    let count = number_at(bytes, 12) as usize;
    if bytes.len() < 16 + 8 * count {
        return Ok(None);
    }
    let question = Question {
        from: number_at(bytes, 0),
        time: number_at(bytes, 4),
        to: number_at(bytes, 8),
    };
    let legs = read_names(heap, &bytes[16..], count)?;
    Ok(Some(Told { question, legs }))
}
