// The check of a plan: it may be used, or the first thing that is wrong with it.
ghost use Rattle.std.specs.Prelude.{◌≡◌, ℕ, ◌<◌, ◌≤◌, true, false, length, take, is_ok, Bool};
ghost use Rattle.plan.specs.Legs.{piers};
ghost use Rattle.plan.specs.Words.{plan_in};
ghost use Rattle.plan.specs.declared.refusal.Refusal.{Refusal};
ghost use Rattle.plan.specs.Check.{AnswersAs, first_not, counts_checked, is_new, leg_ok, walk_ok, change_ok, legs_checked, walks_checked, changes_checked, parts_checked, plan_checked, sound_words, most_legs};
ghost use Rattle.plan.specs.Sound.{Usable};
ghost use Rattle.plan.specs.Keys.{all_fit, Ordered, KeysLeft};

use super::bounds::{MOST_LEGS, MOST_PIERS, MOST_WALKS, TIME_BOUND, below};
use super::counted::Counted;
use super::counts::Counts;
use super::order::names_differ;
use super::refusal::{Part, Refusal};

// The counts, if they are within their bounds and the words hold as much as they say.
fn read_counts(words: &[u64]) -> Result<Counts, Refusal>
    ensures { result ≡ counts_checked words.now }
{
    let [piers, legs, walks, ..] = words else {
        return Err(Refusal::Short);
    };
    let Some(piers) = below(*piers, MOST_PIERS as u64 + 1) else {
        return Err(Refusal::Count(Part::Piers));
    };
    let Some(legs) = below(*legs, MOST_LEGS as u64 + 1) else {
        return Err(Refusal::Count(Part::Legs));
    };
    let Some(walks) = below(*walks, MOST_WALKS as u64 + 1) else {
        return Err(Refusal::Count(Part::Walks));
    };
    if words.len() as u64 - 3 < piers + 6 * legs + 3 * walks {
        return Err(Refusal::Short);
    }
    Ok(Counts {
        piers: piers as usize,
        legs: legs as usize,
        walks: walks as usize,
    })
}

// Passes if the test passes of every number below `n`; else the refusal of the first of which it does not.
pub fn check_each<F: Fn(usize) -> bool, R: Fn(u16) -> Refusal>(
    n: usize,
    is_sound: F,
    refusal: R,
) -> Result<(), Refusal>
    requires few { n ≤ most_legs }
    requires test { (k : ℕ) → k < n → F.pre is_sound k }
    requires refusal { (k : ℕ) → k < n → R.pre refusal k }
    ensures { (f : ℕ → Bool) (e : ℕ → Refusal) → AnswersAs (F.post is_sound) f n → AnswersAs (R.post refusal) e n → result ≡ first_not f e n }
{
    // A `for`: of the test in a closure for `find` it would be asked that it may be called with any number, and it may
    // only with those below `n`.
    for i in 0..n {
        if !is_sound(i) {
            return Err(refusal(i as u16));
        }
    }
    Ok(())
}

impl Counted<'_> {
    // No earlier leg has the run and number of the leg `i`.
    fn has_new_name(self, i: usize) -> bool
        requires { i < length (plan_in self.words.now).legs }
        ensures { result ≡ is_new (plan_in self.entry.words.now) i }
    {
        let draft = self.draft();
        let leg = draft.leg(i);
        (0..i).all(|j| !leg.is_named_as(draft.leg(j)))
    }

    // The leg `i` may stand in the plan.
    fn has_sound_leg(self, i: usize) -> bool
        requires { i < length (plan_in self.words.now).legs }
        ensures { result ≡ leg_ok (plan_in self.entry.words.now) i }
    {
        let draft = self.draft();
        draft.leg(i).is_within(draft.piers() as u64) && self.has_new_name(i)
    }

    // The walk `j` may stand in the plan.
    fn has_sound_walk(self, j: usize) -> bool
        requires { j < length (plan_in self.words.now).walks }
        ensures { result ≡ walk_ok (plan_in self.entry.words.now) j }
    {
        let draft = self.draft();
        draft.walk(j).is_within(draft.piers() as u64)
    }

    // What a change takes at a pier is within its bound.
    fn has_sound_change(self, pier: usize) -> bool
        requires { pier < piers (plan_in self.words.now) }
        ensures { result ≡ change_ok (plan_in self.entry.words.now) pier }
    {
        self.draft().change(pier) < TIME_BOUND
    }

    // The first leg that may not stand in the plan. It compares each leg with all before it, so it is called only where
    // something is known to be wrong.
    fn find_bad_leg(self) -> Result<(), Refusal>
        ensures { result ≡ legs_checked (plan_in self.entry.words.now) }
    {
        check_each(
            self.draft().legs(),
            |i| self.has_sound_leg(i),
            Refusal::BadLeg,
        )
    }

    fn check_walks(self) -> Result<(), Refusal>
        ensures { result ≡ walks_checked (plan_in self.entry.words.now) }
    {
        check_each(
            self.draft().walks(),
            |j| self.has_sound_walk(j),
            Refusal::BadWalk,
        )
    }

    fn check_changes(self) -> Result<(), Refusal>
        ensures { result ≡ changes_checked (plan_in self.entry.words.now) }
    {
        check_each(
            self.draft().piers(),
            |pier| self.has_sound_change(pier),
            Refusal::BadChange,
        )
    }

    // The legs: in time that grows little faster than their count where all is well, since the names are sorted and not
    // compared with each other. The keys of the legs are left in the lent row, in order.
    fn check_legs(self, keys: &mut [u64]) -> Result<(), Refusal>
        requires { length keys.old ≡ length (plan_in self.words.now).legs }
        ensures value { result ≡ legs_checked (plan_in self.entry.words.now) }
        ensures ordered { all_fit (plan_in self.entry.words.now) ≡ true → Ordered (plan_in self.entry.words.now) keys.new }
        ensures kept { all_fit (plan_in self.entry.words.now) ≡ false → keys.new ≡ keys.old }
    {
        if !self.all_legs_fit() {
            return self.find_bad_leg();
        }
        self.put_in_order(keys);
        if names_differ(keys) {
            return Ok(());
        }
        self.find_bad_leg()
    }

    // All that stands behind the counts.
    fn check_parts(self, keys: &mut [u64]) -> Result<(), Refusal>
        requires { length keys.old ≡ length (plan_in self.words.now).legs }
        ensures value { result ≡ parts_checked (plan_in self.entry.words.now) }
        ensures ordered { all_fit (plan_in self.entry.words.now) ≡ true → Ordered (plan_in self.entry.words.now) keys.new }
        ensures kept { all_fit (plan_in self.entry.words.now) ≡ false → keys.new ≡ keys.old }
    {
        self.check_legs(keys)?;
        self.check_walks()?;
        self.check_changes()
    }
}

fn check_all(words: &[u64], keys: &mut [u64]) -> Result<Counts, Refusal>
    requires room { most_legs ≤ length keys.old }
    ensures value { result ≡ plan_checked words.now }
    ensures keys { KeysLeft words.now keys.old keys.new }
{
    let counts = read_counts(words)?;
    Counted::of(words).check_parts(&mut keys[..counts.legs])?;
    Ok(counts)
}

// The counts of a plan that may be used, or the first thing that is wrong with it. It leaves the keys of the legs in the
// lent row, in order, for whoever lays the plan out.
pub fn check_in_order(words: &[u64], keys: &mut [u64]) -> Result<Counts, Refusal>
    requires room { most_legs ≤ length keys.old }
    ensures value { result ≡ plan_checked words.now }
    ensures usable { is_ok result ≡ true → Usable words.now }
    ensures just { Usable words.now → is_ok result ≡ true }
    ensures opens { is_ok result ≡ true → sound_words words.now ≡ true }
    ensures ordered { is_ok result ≡ true → Ordered (plan_in words.now) (take (length (plan_in words.now).legs) keys.new) }
    ensures keys { KeysLeft words.now keys.old keys.new }
{
    check_all(words, keys)
}

// The same for who needs no keys.
pub fn check(words: &[u64]) -> Result<Counts, Refusal>
    ensures value { result ≡ plan_checked words.now }
    ensures usable { is_ok result ≡ true → Usable words.now }
    ensures just { Usable words.now → is_ok result ≡ true }
    ensures opens { is_ok result ≡ true → sound_words words.now ≡ true }
{
    let mut keys = [0; MOST_LEGS];
    check_in_order(words, &mut keys)
}
