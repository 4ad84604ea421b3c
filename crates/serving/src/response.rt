// What the office says to a request that it does not refuse.
use marks::front::Front;
use updates::still::Word;

#[derive(Drop)]
pub enum Response {
    // The marks worth telling, and the itinerary for each, one behind the other: how many legs it has, and the run and
    // the number of each.
    Marks(Front, Vec<u64>),
    // The update is done.
    Updated,
    // The word on an itinerary that was given.
    Looked(Word),
}
