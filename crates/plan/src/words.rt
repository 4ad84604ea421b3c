// Where the parts of a plan lie in the words that hold it, and how they are read.
#![tactic(auto, using(crate::proofs::Parts::parts))]

ghost use Rattle.std.specs.Prelude.{◌≡◌, ◌+◌, ◌*◌, ◌<◌, ◌≤◌, length, slice_set};
ghost use Rattle.plan.specs.Legs.{leg, walk, change_at, piers};
ghost use Rattle.plan.specs.Words.{Whole, legs_start, walks_start, plan_end, plan_in};

use super::leg::Leg;
use super::walk::Walk;

// A plan that stands whole in lent words, whether or not it was checked.
#[derive(Clone, Copy)]
pub(crate) struct Draft<'a> {
    words: &'a [u64],
    ghost whole: { plan_end words.now ≤ length words.now },
}

impl<'a> Draft<'a> {
    pub(crate) fn of(words: &'a [u64]) -> Draft<'a>
        requires { Whole words.now }
        ensures { result.words.now ≡ words.now }
    {
        Draft { words }
    }

    pub(crate) fn piers(self) -> usize
        ensures { result ≡ piers (plan_in self.entry.words.now) }
    {
        self.words[0] as usize
    }

    pub(crate) fn legs(self) -> usize
        ensures { result ≡ length (plan_in self.entry.words.now).legs }
    {
        self.words[1] as usize
    }

    pub(crate) fn walks(self) -> usize
        ensures { result ≡ length (plan_in self.entry.words.now).walks }
    {
        self.words[2] as usize
    }

    // Where the legs begin, behind the counts and the changes.
    fn legs_start(self) -> usize
        ensures { result ≡ legs_start self.entry.words.now }
    {
        3 + self.words[0] as usize
    }

    // Where the walks begin, behind the legs.
    pub(crate) fn walks_start(self) -> usize
        ensures { result ≡ walks_start self.entry.words.now }
    {
        self.legs_start() + 6 * self.words[1] as usize
    }

    // Where the plan ends, behind the walks.
    pub(crate) fn end(self) -> usize
        ensures { result ≡ plan_end self.entry.words.now }
    {
        self.walks_start() + 3 * self.words[2] as usize
    }

    // Where the six numbers of a leg begin.
    pub(crate) fn leg_start(self, i: usize) -> usize
        requires { i < length (plan_in self.words.now).legs }
        ensures value { result ≡ legs_start self.entry.words.now + 6 * i }
        ensures room { result + 6 ≤ length self.entry.words.now }
    {
        self.legs_start() + 6 * i
    }

    // Where the three numbers of a walk begin.
    fn walk_start(self, j: usize) -> usize
        requires { j < length (plan_in self.words.now).walks }
        ensures value { result ≡ walks_start self.entry.words.now + 3 * j }
        ensures room { result + 3 ≤ length self.entry.words.now }
    {
        self.walks_start() + 3 * j
    }

    pub(crate) fn leg(self, i: usize) -> Leg
        requires { i < length (plan_in self.words.now).legs }
        ensures { result ≡ leg (plan_in self.entry.words.now) i }
    {
        let at = self.leg_start(i);
        Leg::read(&self.words[at..at + 6])
    }

    pub(crate) fn walk(self, j: usize) -> Walk
        requires { j < length (plan_in self.words.now).walks }
        ensures { result ≡ walk (plan_in self.entry.words.now) j }
    {
        let at = self.walk_start(j);
        Walk::read(&self.words[at..at + 3])
    }

    // What a change of boats takes at a pier.
    pub(crate) fn change(self, pier: usize) -> u64
        requires { pier < piers (plan_in self.words.now) }
        ensures { result ≡ change_at (plan_in self.entry.words.now) pier }
    {
        self.words[3 + pier]
    }
}

// The leg `i` of words that are there, whether or not they were checked: so a plan is read while it is being changed.
pub fn leg_at(words: &[u64], i: usize) -> Leg
    requires whole { Whole words.now }
    requires within { i < length (plan_in words.now).legs }
    ensures { result ≡ leg (plan_in words.now) i }
{
    Draft::of(words).leg(i)
}

// The count of legs is now this one.
pub(crate) fn set_leg_count(words: &mut [u64], legs: usize)
    requires { 3 ≤ length words.old }
    ensures { words.new ≡ slice_set words.old 1 legs }
{
    words[1] = legs as u64;
}
