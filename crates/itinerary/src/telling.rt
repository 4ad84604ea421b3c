// The legs of an itinerary in a row that a caller lends.
ghost use Rattle.std.specs.Prelude.{◌≡◌, ℕ, ◌+◌, ◌*◌, ◌<◌, ◌≤◌, map, length, slice_index, slice_index_or};
ghost use Rattle.plan.specs.Legs.{no_leg};
ghost use Rattle.marks.specs.Row.{over};
ghost use Rattle.itinerary.specs.Named.{itinerary_words};

use plan::leg::Leg;

// Writes how many legs there are, and the run and the number of each; the rest of the row stays.
pub(crate) fn name_legs(legs: &[Leg], places: &[u16], out: &mut [u64])
    requires places { (c : ℕ) → c < length places.now → slice_index places.now c < length legs.now }
    requires room { 1 + 2 * length places.now ≤ length out.old }
    ensures { out.new
        ≡ over (itinerary_words (map (λ i. slice_index_or legs.now i no_leg) places.now)) out.old }
{
    out[0] = places.len() as u64;
    // By place: of a row that `chunks_exact_mut` lends a proof knows its length afterwards and nothing of its numbers.
    for (j, place) in places.iter().enumerate() {
        let a = legs[*place as usize];
        out[1 + 2 * j] = a.run;
        out[2 + 2 * j] = a.number;
    }
}
