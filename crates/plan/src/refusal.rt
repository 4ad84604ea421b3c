// Why a request was turned away: one list for every request, with the number and the place that callers are told.
ghost use Rattle.std.specs.Prelude.{◌≡◌, ◌++◌, Some, codes};
ghost use Rattle.plan.specs.Refusals.{number_of, place_of, refusal_text};

use std::fmt;

// What a plan counts.
#[derive(Clone, Copy, PartialEq, Eq)]
pub enum Part {
    Piers,
    Legs,
    Walks,
}

#[derive(Clone, Copy, PartialEq, Eq)]
pub enum Refusal {
    // 1: the plan is shorter than its counts say, or has no counts.
    Short,
    // 1: the count of piers, of legs or of walks is above its bound.
    Count(Part),
    // 2: a leg has a number out of its bounds, or the run and number of an earlier leg.
    BadLeg(u16),
    // 2: a walk has a number out of its bounds.
    BadWalk(u16),
    // 2: the change of a pier is out of its bounds.
    BadChange(u16),
    // 3: the question is cut short, or the number at this place of it is out of its bounds.
    BadQuestion(u64),
    // 4: the lent row is too short for the answer; its length.
    ShortRow(u64),
    // 5: the mark is not one of the answer's; its boats.
    NoMark(u64),
    // 6: a delay would take a time of this leg past its bound.
    TooLate(u16),
    // 7: an extra leg has the run and number of a leg of the plan; its number.
    Taken(u64),
    // 7: the plan has as many legs as it may have; that many.
    Full(u64),
    // 8: no leg of the plan has this run and number; the number.
    NoLeg(u64),
    // 9: an itinerary has too many legs, or is cut short; its count of legs.
    BadItinerary(u64),
}

impl Refusal {
    // The number of the refusal in the list.
    pub fn number(self) -> u64
        ensures { result ≡ number_of self }
    {
        match self {
            Refusal::Short | Refusal::Count(_) => 1,
            Refusal::BadLeg(_) | Refusal::BadWalk(_) | Refusal::BadChange(_) => 2,
            Refusal::BadQuestion(_) => 3,
            Refusal::ShortRow(_) => 4,
            Refusal::NoMark(_) => 5,
            Refusal::TooLate(_) => 6,
            Refusal::Taken(_) | Refusal::Full(_) => 7,
            Refusal::NoLeg(_) => 8,
            Refusal::BadItinerary(_) => 9,
        }
    }

    // Where the fault lies. Legs, walks and piers share one range: walks are counted from 1,024 on, piers from 1,280.
    pub fn place(self) -> u64
        ensures { result ≡ place_of self }
    {
        match self {
            Refusal::Short => 3,
            Refusal::Count(Part::Piers) => 0,
            Refusal::Count(Part::Legs) => 1,
            Refusal::Count(Part::Walks) => 2,
            Refusal::BadLeg(leg) | Refusal::TooLate(leg) => u64::from(leg),
            Refusal::BadWalk(walk) => 1024 + u64::from(walk),
            Refusal::BadChange(pier) => 1280 + u64::from(pier),
            Refusal::BadQuestion(at) => at,
            Refusal::ShortRow(length) => length,
            Refusal::NoMark(boats) => boats,
            Refusal::Taken(number) | Refusal::NoLeg(number) => number,
            Refusal::Full(legs) => legs,
            Refusal::BadItinerary(legs) => legs,
        }
    }
}

impl fmt::Display for Refusal {
    ghost output = { λ e. Some (refusal_text e) };

    fn fmt<W: fmt::Write>(&self, f: &mut fmt::Formatter<W>) -> fmt::Result {
        let number = self.number();
        let place = self.place();
        write!(f, "refused {number} at {place}")
    }
}
