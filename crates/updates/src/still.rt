// Whether an itinerary still goes, as the plan now is. It is lent as a pier, a time, a count of legs, and then the run and
// the number of each.
ghost use Rattle.std.specs.Prelude.{◌≡◌, ◌+◌, ◌*◌, ◌≤◌, length, drop, if◌then◌else◌, Some, slice_index};
ghost use Rattle.plan.specs.Words.{plan_in};
ghost use Rattle.updates.specs.declared.still.Word.TheVariants.{Still, Gone};
ghost use Rattle.updates.specs.Still.{StillGoes, names_in, given_count, given_checked, Said, WordedBy, Worded, word_text};

use journey::at::At;
use journey::checking::goes;
use plan::bounds::MOST_LEGS;
use plan::name::LegName;
use plan::refusal::Refusal;
use plan::timetable::Timetable;
use std::fmt;

#[derive(Clone, Copy, PartialEq, Eq)]
pub enum Word {
    // Each leg is in the plan, runs and follows the one before, and the first is reached.
    Still,
    // One of these no longer holds.
    Gone,
}

impl From<bool> for Word {
    ghost from_gives = { λ goes word. word ≡ (if goes then Still else Gone) };

    fn from(goes: bool) -> Word {
        if goes { Word::Still } else { Word::Gone }
    }
}

impl fmt::Display for Word {
    ghost output = { λ word. Some (word_text word) };

    fn fmt<W: fmt::Write>(&self, f: &mut fmt::Formatter<W>) -> fmt::Result {
        match self {
            Word::Still => write!(f, "still"),
            Word::Gone => write!(f, "gone"),
        }
    }
}

const NO_NAME: LegName = LegName { run: 0, number: 0 };

// How many legs the itinerary says that it has: none where it is cut short before that.
fn count_of(given: &[u64]) -> u64
    ensures { result ≡ given_count given.now }
{
    given.get(2).copied().unwrap_or(0)
}

// That many, if they are not too many and all there. They are compared with the bound first, so that nothing wraps.
fn check_given(given: &[u64]) -> Result<usize, Refusal>
    ensures { result ≡ given_checked given.now }
{
    let count = count_of(given);
    if count <= MOST_LEGS as u64 && 3 + 2 * count <= given.len() as u64 {
        Ok(count as usize)
    } else {
        Err(Refusal::BadItinerary(count))
    }
}

// Reads as many names as there is room for.
fn read_names(pairs: &[u64], names: &mut [LegName])
    requires { 2 * length names.old ≤ length pairs.now }
    ensures { names.new ≡ names_in (length names.old) pairs.now }
{
    // By place: of what is written through a `zip` a proof knows nothing afterwards.
    for (i, name) in names.iter_mut().enumerate() {
        *name = LegName {
            run: pairs[2 * i],
            number: pairs[2 * i + 1],
        };
    }
}

// The word on an itinerary of so many legs, with a row to read their names into.
fn word_on(table: Timetable<'_>, given: &[u64], names: &mut [LegName]) -> Word
    requires there { 3 + 2 * length names.old ≤ length given.now }
    ensures { Said result (StillGoes (plan_in table.entry.words.now) (slice_index given.now 0) (slice_index given.now 1)
        (names_in (length names.old) (drop 3 given.now))) }
{
    if names.is_empty() {
        return Word::Still;
    }
    read_names(&given[3..], names);
    let at = At {
        pier: given[0],
        time: given[1],
    };
    Word::from(goes(table, at, names))
}

// The word on an itinerary, by a plan that was checked before.
pub fn still_checked(table: Timetable<'_>, given: &[u64]) -> Result<Word, Refusal>
    ensures { WordedBy (given_checked given.now) (plan_in table.entry.words.now)
        given.now result }
{
    let legs = check_given(given)?;
    let mut names = [NO_NAME; MOST_LEGS];
    Ok(word_on(table, given, &mut names[0..legs]))
}

// The word on an itinerary, by the plan in lent memory.
pub fn still(plan: &[u64], given: &[u64]) -> Result<Word, Refusal>
    ensures { Worded plan.now given.now result }
{
    still_checked(Timetable::open(plan)?, given)
}
