// The answer and the itineraries by trying all journeys: slow and plain, straight from docs/RULES.md.
ghost use Rattle.std.specs.Prelude.{◌≡◌, ◌↔◌, IsTrue, IfOk, All};
ghost use Rattle.small_plans.specs.Marks.{Falls};
ghost use Rattle.small_plans.specs.Tried.{mark_of, marks_of, IsFalling};
ghost use Rattle.small_plans.specs.Words.{marks_words};

use crate::journeys::Journey;
use crate::small::{Leg, Mark, Question, SmallPlan, Spot};
use crate::steps::{Step, first_step, step_between};
use std::alloc::{AllocError, Global};
use std::cmp::Ordering;

// The earliest arrival with one count of boats, and the journeys that are there by then.
#[derive(Drop)]
pub struct Reached {
    pub arrival: u64,
    // The journey that is named for it.
    pub itinerary: Journey,
    // How many journeys there are.
    pub ways: u64,
    // One stays aboard on each of them.
    pub needs_stay: bool,
}

impl Reached {
    fn by(arrival: u64, journey: &Journey) -> Result<Reached, AllocError> {
        Ok(Reached {
            arrival,
            itinerary: journey.clone()?,
            ways: 1,
            needs_stay: journey.stays,
        })
    }

    // One journey more, of as many boats.
    fn note(&mut self, arrival: u64, journey: &Journey) -> Result<(), AllocError> {
        match arrival.cmp(&self.arrival) {
            Ordering::Greater => {}
            Ordering::Less => {
                self.arrival = arrival;
                self.itinerary.become_like(journey)?;
                self.ways = 1;
                self.needs_stay = journey.stays;
            }
            Ordering::Equal => {
                self.ways = self.ways.saturating_add(1);
                self.needs_stay = self.needs_stay && journey.stays;
                if journey.is_named_before(&self.itinerary) {
                    self.itinerary.become_like(journey)?;
                }
            }
        }
        Ok(())
    }

    pub fn mark(&self) -> Mark
        ensures { result ≡ mark_of self.now }
    {
        Mark {
            arrival: self.arrival,
            boats: self.itinerary.boats,
        }
    }
}

// Behind what is told already, by fewer boats: one is there earlier than by all of it.
fn is_worth_telling(told: &[Reached], mark: Mark) -> bool
    requires { IsFalling told.now }
    ensures { IsTrue result ↔ All (λ before. Falls (mark_of before) mark) told.now }
{
    match told.last() {
        Some(before) => before.mark().falls_to(mark),
        None => true,
    }
}

#[derive(Drop)]
struct Search<'a> {
    plan: &'a SmallPlan,
    question: Question,
    // The journey that is tried: one for all, which grows and shrinks, so that a step takes no memory of its own.
    journey: Journey,
    // For each count of boats, by rising boats. They are so few that a map would cost more: it takes room for many at once.
    earliest: Vec<Reached>,
    journeys: u64,
}

impl<'a> Search<'a> {
    // Somebody is there by the journey.
    fn note(&mut self, arrival: u64) -> Result<(), AllocError> {
        let journey = &self.journey;
        if journey.boats > self.question.most {
            return Ok(());
        }
        self.journeys = self.journeys.saturating_add(1);
        let found = self
            .earliest
            .binary_search_by_key(&journey.boats, |reached| reached.itinerary.boats);
        match found {
            Ok(place) => self.earliest[place].note(arrival, journey)?,
            Err(place) => {
                let reached = Reached::by(arrival, journey)?;
                self.earliest.insert(place, reached)?;
            }
        }
        Ok(())
    }

    // Who has ridden the journey's legs, and is at its end, is there, or walks there.
    fn note_ends(&mut self, end: Spot) -> Result<(), AllocError> {
        let to = self.question.to;
        if end.pier == to {
            self.note(end.time)?;
        }
        for walk in &self.plan.walks {
            if walk.from == end.pier && walk.to == to {
                self.note(end.time.saturating_add(walk.takes))?;
            }
        }
        Ok(())
    }

    // How the journey goes on from its end with the leg, if it can. It never needs a leg twice: what lies between can be
    // left out. A leg that left before is out of reach in every way, which is seen at once; the journey's own legs are
    // mostly such, so that they are looked through last.
    fn next_step(&self, end: Spot, leg: Leg) -> Option<Step> {
        if leg.leaves < end.time || !leg.runs() {
            return None;
        }
        let step = match self.journey.legs.last() {
            Some(last) => step_between(self.plan, *last, leg),
            None => first_step(self.plan, self.question, leg),
        };
        step.filter(|_| !self.journey.legs.contains(&leg))
    }

    // All journeys that begin with this one; so many legs may follow. It is as it was afterwards.
    fn go_on(&mut self, others: usize) -> Result<(), AllocError> {
        let end = self.journey.end(self.question);
        self.note_ends(end)?;
        if others == 0 {
            return Ok(());
        }
        for leg in &self.plan.legs {
            if let Some(step) = self.next_step(end, *leg) {
                let (boats, stays) = (self.journey.boats, self.journey.stays);
                self.journey.add(*leg, step)?;
                self.go_on(others - 1)?;
                self.journey.legs.pop();
                self.journey.boats = boats;
                self.journey.stays = stays;
            }
        }
        Ok(())
    }

    // What is worth telling: by rising boats, where one is there earlier than with fewer.
    fn tell(self, heap: Global) -> Result<Tried, AllocError>
        ensures { IfOk result (λ t. IsFalling t.reached.items) }
    {
        let mut told = Vec::new(heap);
        for reached in self.earliest {
            if is_worth_telling(&told, reached.mark()) {
                told.push(reached)?;
            }
        }
        Ok(Tried {
            reached: told,
            journeys: self.journeys,
        })
    }
}

// What trying all journeys of a plan found for a question.
#[derive(Drop)]
pub struct Tried {
    // The marks of the answer, by rising boats.
    pub reached: Vec<Reached>,
    pub journeys: u64,
}

impl Tried {
    pub fn marks(&self, heap: Global) -> Result<Vec<Mark>, AllocError>
        ensures { IfOk result (λ v. v.items ≡ marks_of self.now.reached.items) }
    {
        self.reached
            .iter()
            .map(|reached| reached.mark())
            .collect(heap)
    }

    // How many marks there are, and the arrival and the boats of each: docs/FORMAT.md, "A question and its answer in
    // memory".
    pub fn words(&self, heap: Global) -> Result<Vec<u64>, AllocError>
        ensures { IfOk result (λ v. v.items ≡ marks_words (marks_of self.now.reached.items)) }
    {
        let marks = self.reached.len() as u64;
        let mut words = vec![in heap; marks]?;
        for reached in &self.reached {
            let Mark { arrival, boats } = reached.mark();
            words.extend_from_slice(&[arrival, boats])?;
        }
        Ok(words)
    }
}

// Tries all journeys of at most so many boats. Only the order of the marks is promised: that they are the answer is what
// the programs look at.
pub fn try_journeys(heap: Global, plan: &SmallPlan, question: Question) -> Result<Tried, AllocError>
    ensures { IfOk result (λ t. IsFalling t.reached.items) }
{
    let mut search = Search {
        plan,
        question,
        journey: Journey::on_foot(heap),
        earliest: Vec::new(heap),
        journeys: 0,
    };
    search.go_on(plan.legs.len())?;
    search.tell(heap)
}
