// A checked plan, borrowed: legs, walks and changes by number. Other crates read a plan through it and see no offset.
#![tactic(auto, using(crate::proofs::Laws::sound_parts))]

ghost use Rattle.std.specs.Prelude.{◌≡◌, ◌<◌, ◌≤◌, true, length, is_ok, IfOk, IfErr};
ghost use Rattle.plan.specs.Legs.{leg, walk, change_at, piers, time_bound};
ghost use Rattle.plan.specs.Words.{Whole, plan_in, plan_end};
ghost use Rattle.plan.specs.Check.{sound_words, plan_checked};
ghost use Rattle.plan.specs.Sound.{LegWithin, WalkWithin, Few, Usable};
ghost use Rattle.plan.specs.Keys.{Ordered};

use super::checking::check;
use super::counted::Counted;
use super::leg::Leg;
use super::refusal::Refusal;
use super::walk::Walk;
use super::words::Draft;

#[derive(Clone, Copy)]
pub struct Timetable<'a> {
    words: &'a [u64],
    ghost whole: { plan_end words.now ≤ length words.now },
    ghost sound: { sound_words words.now ≡ true },
}

impl<'a> Timetable<'a> {
    // The plan that these words hold. Whoever has had them checked can show what is asked.
    pub fn of(words: &'a [u64]) -> Timetable<'a>
        requires whole { Whole words.now }
        requires sound { sound_words words.now ≡ true }
        ensures { result.words.now ≡ words.now }
    {
        Timetable { words }
    }

    // The plan that these words hold, if it may be used.
    pub fn open(words: &'a [u64]) -> Result<Timetable<'a>, Refusal>
        ensures opens { is_ok result ≡ is_ok (plan_checked words.now) }
        ensures words { IfOk result (λ table. table.words.now ≡ words.now) }
        ensures refused { IfErr result (λ refusal. plan_checked words.now ≡ Err refusal) }
        ensures usable { is_ok result ≡ true → Usable words.now }
    {
        check(words)?;
        Ok(Timetable::of(words))
    }

    fn draft(self) -> Draft<'a>
        ensures { result.words.now ≡ self.entry.words.now }
    {
        Draft::of(self.words)
    }

    pub fn piers(self) -> usize
        ensures { result ≡ piers (plan_in self.entry.words.now) }
    {
        self.draft().piers()
    }

    pub fn legs(self) -> usize
        ensures { result ≡ length (plan_in self.entry.words.now).legs }
    {
        self.draft().legs()
    }

    pub fn walks(self) -> usize
        ensures { result ≡ length (plan_in self.entry.words.now).walks }
    {
        self.draft().walks()
    }

    pub fn leg(self, i: usize) -> Leg
        requires { i < length (plan_in self.words.now).legs }
        ensures value { result ≡ leg (plan_in self.entry.words.now) i }
        ensures within { LegWithin (piers (plan_in self.entry.words.now)) result }
    {
        self.draft().leg(i)
    }

    pub fn walk(self, j: usize) -> Walk
        requires { j < length (plan_in self.words.now).walks }
        ensures value { result ≡ walk (plan_in self.entry.words.now) j }
        ensures within { WalkWithin (piers (plan_in self.entry.words.now)) result }
    {
        self.draft().walk(j)
    }

    // What a change of boats takes at a pier.
    pub fn change(self, pier: usize) -> u64
        requires { pier < piers (plan_in self.words.now) }
        ensures value { result ≡ change_at (plan_in self.entry.words.now) pier }
        ensures within { result < time_bound }
    {
        self.draft().change(pier)
    }

    // Leaves the keys of the legs in the lent row, in order.
    pub fn order_legs(self, keys: &mut [u64])
        requires few { Few (plan_in self.words.now) }
        requires size { length keys.old ≡ length (plan_in self.words.now).legs }
        ensures { Ordered (plan_in self.entry.words.now) keys.new }
    {
        Counted::of(self.words).put_in_order(keys)
    }
}
