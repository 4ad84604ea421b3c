// Things by the pier that each belongs to, chained in lent rows: no chain needs room of its own.
ghost use Rattle.std.specs.Prelude.{◌≡◌, ℕ, suc, ◌<◌, ◌≤◌, length, slice_index, slice_set};
ghost use Rattle.rounds.specs.Chains.{Falls};
ghost use Rattle.rounds.specs.Layout.{Chains};

#[derive(Clone, Copy)]
pub struct Chain<'a> {
    // For each pier one more than the place of its last one, or 0: an Option would take twice the two bytes.
    pub last: &'a [u16],
    // For each one the same of the one before it that belongs to the same pier.
    pub prior: &'a [u16],
    pub ghost falls: { Falls prior.now },
    pub ghost within: { (s : ℕ) → s < length last.now → slice_index last.now s ≤ length prior.now },
}

impl<'a> Chain<'a> {
    ghost use Rattle.rounds.specs.Chains.{places};
    ghost use Rattle.rounds.specs.Rows.{places_left};

    // The places of those that belong to a pier, from the last to the first.
    pub fn of(self, pier: usize) -> Along<'a>
        requires { pier < length self.last.now }
        ensures { places_left result ≡ places self.entry.prior.now (slice_index self.entry.last.now pier) }
    {
        Along {
            prior: self.prior,
            at: self.last[pier] as usize,
        }
    }
}

// Those of one pier, from the last to the first.
#[derive(Clone, Copy)]
pub struct Along<'a> {
    pub prior: &'a [u16],
    pub at: usize,
    pub ghost falls: { Falls prior.now },
    pub ghost within: { at ≤ length prior.now },
}

impl<'a> Iterator for Along<'a> {
    ghost use Rattle.std.specs.Iterator.{YieldsFirst, item_count};
    ghost use Rattle.rounds.specs.Chains.{places};

    type Item = usize;

    ghost next_gives = { YieldsFirst (λ s. places s.prior.now s.at) };

    ghost remaining = { item_count (λ s. places s.prior.now s.at) };

    fn next(&mut self) -> Option<usize> {
        if self.at == 0 {
            return None;
        }
        let place = self.at - 1;
        self.at = self.prior[place] as usize;
        Some(place)
    }
}

// One more of a pier, the one at `i`, goes to the front of the chain of the pier, so that the chains need no room of
// their own.
pub fn put_in_front(last: &mut [u16], prior: &mut [u16], pier: usize, i: usize)
    requires pier { pier < length last.old }
    requires place { i < length prior.old }
    requires few { i < 65535 }
    ensures last { last.new ≡ slice_set last.old pier (suc i) }
    ensures prior { prior.new ≡ slice_set prior.old i (slice_index last.old pier) }
{
    prior[i] = last[pier];
    last[pier] = i as u16 + 1;
}

// Chains things, as many as `prior` has places, each by the pier that it belongs to.
pub fn chain_by<F: Fn(usize) -> usize>(pier_of: F, last: &mut [u16], prior: &mut [u16])
    requires few { length prior.old < 65536 }
    requires asked { (i : ℕ) → i < length prior.old → F.pre pier_of i }
    requires piers { (i s : ℕ) → i < length prior.old → F.post pier_of i s → s < length last.old }
    ensures { (pier : ℕ → ℕ) → ((i s : ℕ) → i < length prior.new → F.post pier_of i s → s ≡ pier i)
        → Chains pier (length prior.new) (length last.new) last.new prior.new (length prior.new) }
{
    last.fill(0);
    // By place, since both rows are written.
    for i in 0..prior.len() {
        put_in_front(last, prior, pier_of(i), i);
    }
}
