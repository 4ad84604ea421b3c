// What the office prints.
ghost use Rattle.std.specs.Prelude.{◌≡◌, ◌+◌, ◌*◌, ◌/◌, length, take, drop, Some, IfOk, string_bytes};
ghost use Rattle.std.specs.List.{flat_map};
ghost use Rattle.updates.specs.Still.{names_in};
ghost use Rattle.office.specs.Texts.{names_text, legs_in, itineraries_text, response_text};

use plan::name::LegName;
use plan::refusal::Refusal;
use serving::response::Response;
use std::alloc::{AllocError, Global};
use std::fmt;

// The legs of an itinerary on a line, as `0.0 1.0`, by the run and the number of each; nothing where it is on foot.
#[derive(Clone, Copy)]
struct Names<'a> {
    pairs: &'a [u64],
}

impl fmt::Display for Names<'_> {
    ghost output = { λ names. Some (names_text (names_in (length names.pairs.now / 2) names.pairs.now)) };

    fn fmt<W: fmt::Write>(&self, f: &mut fmt::Formatter<W>) -> fmt::Result {
        let [run, number, rest @ ..] = self.pairs else {
            return Ok(());
        };
        let first = LegName {
            run: *run,
            number: *number,
        };
        write!(f, "{first}")?;
        for pair in rest.chunks_exact(2) {
            let name = LegName {
                run: pair[0],
                number: pair[1],
            };
            write!(f, " {name}")?;
        }
        Ok(())
    }
}

// The names of the first itinerary of numbers that begin with its count of legs, no more than stand there; and the numbers
// behind them.
fn split_first_names(numbers: &[u64]) -> (Names<'_>, &[u64])
    ensures first { result.0.pairs.now ≡ take (2 * legs_in numbers.now) (drop 1 numbers.now) }
    ensures rest { result.1.now ≡ drop (1 + 2 * legs_in numbers.now) numbers.now }
{
    let [count, names @ ..] = numbers else {
        return (Names { pairs: numbers }, numbers);
    };
    let legs = (*count).min(names.len() as u64 / 2) as usize;
    let (pairs, rest) = names.split_at(2 * legs);
    (Names { pairs }, rest)
}

// A line for each of so many itineraries, which stand one behind the other.
#[derive(Clone, Copy)]
struct Itineraries<'a> {
    count: usize,
    numbers: &'a [u64],
}

impl fmt::Display for Itineraries<'_> {
    ghost output = { λ all. Some (itineraries_text all.count all.numbers.now) };

    fn fmt<W: fmt::Write>(&self, f: &mut fmt::Formatter<W>) -> fmt::Result {
        let mut numbers = self.numbers;
        for _i in 0..self.count {
            let (names, rest) = split_first_names(numbers);
            writeln!(f, "{names}")?;
            numbers = rest;
        }
        Ok(())
    }
}

// The lines of what is said to a request: the marks of a question and the itinerary of each; none for an update that is
// done; the word on an itinerary; or the refusal.
#[derive(Clone, Copy)]
struct Lines<'a> {
    said: &'a Result<Response, Refusal>,
}

impl fmt::Display for Lines<'_> {
    ghost output = { λ lines. Some (response_text lines.said.now) };

    fn fmt<W: fmt::Write>(&self, f: &mut fmt::Formatter<W>) -> fmt::Result {
        match self.said {
            Ok(Response::Marks(front, numbers)) => {
                let itineraries = Itineraries {
                    count: front.marks().len(),
                    numbers,
                };
                write!(f, "{front}\n{itineraries}")
            }
            Ok(Response::Updated) => Ok(()),
            Ok(Response::Looked(word)) => writeln!(f, "{word}"),
            Err(refusal) => writeln!(f, "{refusal}"),
        }
    }
}

// The lines of responses, one after the other.
pub fn text_of(heap: Global, responses: &[Result<Response, Refusal>]) -> Result<String, AllocError>
    ensures { IfOk result (λ s. string_bytes s ≡ flat_map response_text responses.now) }
{
    let mut text = String::new(heap);
    for said in responses {
        let lines = Lines { said };
        write!(text, "{lines}")?;
    }
    Ok(text)
}
