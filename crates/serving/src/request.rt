// What the office is asked to do.
use updates::update::Update;

#[derive(Drop)]
pub enum Request {
    // A question in numbers: from, time, to, and the most boats.
    Ask(Vec<u64>),
    Apply(Update),
    // An itinerary that was given, in numbers: the pier and the time, how many legs, and the run and the number of each.
    // Does it still go?
    Look(Vec<u64>),
}
