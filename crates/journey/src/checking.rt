// A journey that is told by the names of its legs, checked against the plan.
ghost use Rattle.std.specs.Prelude.{◌≡◌, ◌+◌, ◌^◌, ◌<◌, length, Decides, Some};
ghost use Rattle.plan.specs.Legs.{piers, time_bound};
ghost use Rattle.plan.specs.Words.{plan_in};
ghost use Rattle.plan.specs.Sound.{LegWithin};
ghost use Rattle.journey.specs.Checked.{there_by, EarliestEnd, find_leg, going_leg, first_leg, next_leg, boats_after, broken_text, Rides, GoneAlong, Verdict};

use crate::at::At;
use crate::question::Question;
use crate::steps::{begins, follows, stays};
use marks::mark::Mark;
use plan::leg::Leg;
use plan::name::LegName;
use plan::timetable::Timetable;
use plan::walk::Walk;
use std::error::Error;
use std::fmt;

// Where a journey breaks: at the first leg that is not in the plan, does not run, or does not follow; at the count of
// legs, where the last does not lead to the pier.
#[derive(Clone, Copy, Debug, PartialEq, Eq)]
pub struct Broken {
    pub place: usize,
}

impl fmt::Display for Broken {
    ghost output = { λ broken. Some (broken_text broken) };

    fn fmt<W: fmt::Write>(&self, f: &mut fmt::Formatter<W>) -> fmt::Result {
        let place = self.place;
        write!(f, "broken at {place}")
    }
}

impl Error for Broken {}

// When one is there by the walk, if it leads from where one is to the pier.
fn there_by(walk: Walk, at: At, to: u64) -> Option<u64>
    requires { at.time + walk.takes < 2 ^ 64 }
    ensures { result ≡ there_by walk at.pier at.time to }
{
    (walk.from == at.pier && walk.to == to).then_some(at.time + walk.takes)
}

// When who is at a pier at a time can be at another at the earliest: at once where it is that pier, else by a walk.
pub fn ends(table: Timetable<'_>, at: At, to: u64) -> Option<u64>
    requires { at.time < time_bound }
    ensures { EarliestEnd (plan_in table.entry.words.now) to at.pier at.time result }
{
    if at.pier == to {
        return Some(at.time);
    }
    (0..table.walks())
        .filter_map(|j| there_by(table.walk(j), at, to))
        .min()
}

// The leg of that name, if the plan has one.
fn find_leg(table: Timetable<'_>, name: LegName) -> Option<Leg>
    ensures { result ≡ find_leg name (plan_in table.entry.words.now).legs }
{
    (0..table.legs())
        .map(|i| table.leg(i))
        .find(|leg| leg.name() == name)
}

// The leg of that name, if the plan has one and it runs.
fn going_leg(table: Timetable<'_>, name: LegName) -> Option<Leg>
    ensures { result ≡ going_leg (plan_in table.entry.words.now) name }
{
    find_leg(table, name).filter(|leg| leg.runs())
}

// The leg of that name, if a journey can begin with it.
fn first_leg(table: Timetable<'_>, at: At, name: LegName) -> Option<Leg>
    ensures { result ≡ first_leg (plan_in table.entry.words.now) at.pier at.time name }
{
    let leg = going_leg(table, name)?;
    begins(table, at, leg).then_some(leg)
}

// The leg of that name, if it follows the one before.
fn next_leg(table: Timetable<'_>, before: Leg, name: LegName) -> Option<Leg>
    requires { LegWithin (piers (plan_in table.words.now)) before }
    ensures { result ≡ next_leg (plan_in table.entry.words.now) before name }
{
    let leg = going_leg(table, name)?;
    follows(table, before, leg).then_some(leg)
}

// A journey that was gone along by the names of its legs: the last leg, and the boats up to it.
#[derive(Clone, Copy)]
struct Ride {
    last: Leg,
    boats: u64,
}

impl Ride {
    // One leg further: with one boat more, unless one stays aboard for it.
    fn with(self, next: Leg) -> Ride
        requires { self.boats + 1 < 2 ^ 64 }
        ensures { result ≡ record { last = next; boats = boats_after self.boats self.last next } }
    {
        let boats = if stays(self.last, next) {
            self.boats
        } else {
            self.boats + 1
        };
        Ride { last: next, boats }
    }
}

// Goes along a journey by the names of its legs, or as far as the first name that breaks it.
fn go_along(table: Timetable<'_>, at: At, legs: &[LegName]) -> Result<Ride, Broken>
    requires { 0 < length legs.now }
    ensures { Rides (plan_in table.entry.words.now) at.pier at.time legs.now result }
{
    let last = first_leg(table, at, legs[0]).ok_or(Broken { place: 0 })?;
    let mut ride = Ride { last, boats: 1 };
    for (i, name) in legs[1..].iter().enumerate() {
        let next = next_leg(table, ride.last, *name).ok_or(Broken { place: i + 1 })?;
        ride = ride.with(next);
    }
    Ok(ride)
}

// These are the names of the legs of a journey from the pier at the time, wherever it leads.
pub fn goes(table: Timetable<'_>, at: At, legs: &[LegName]) -> bool
    requires { 0 < length legs.now }
    ensures { Decides result (GoneAlong (plan_in table.entry.words.now) at.pier at.time legs.now) }
{
    go_along(table, at, legs).is_ok()
}

// A journey that is to answer the question, by the names of its legs: the mark that it reaches, or where it breaks.
pub fn check_journey(
    table: Timetable<'_>,
    question: Question,
    legs: &[LegName],
) -> Result<Mark, Broken>
    requires { question.time < time_bound }
    ensures { Verdict (plan_in table.entry.words.now) question.from question.time question.to
        legs.now result }
{
    if legs.is_empty() {
        let on_foot = ends(table, question.outset(), question.to);
        let arrival = on_foot.ok_or(Broken { place: 0 })?;
        return Ok(Mark { arrival, boats: 0 });
    }
    let ride = go_along(table, question.outset(), legs)?;
    let end = ends(table, At::arrival_of(ride.last), question.to);
    let arrival = end.ok_or(Broken { place: legs.len() })?;
    Ok(Mark {
        arrival,
        boats: ride.boats,
    })
}
