// A plan that stands whole in lent words and holds no more than a plan may.
ghost use Rattle.std.specs.Prelude.{◌≡◌, ◌≤◌, length};
ghost use Rattle.plan.specs.Words.{Whole, plan_in, plan_end};
ghost use Rattle.plan.specs.Sound.{Few};

use super::words::Draft;

#[derive(Clone, Copy)]
pub(crate) struct Counted<'a> {
    words: &'a [u64],
    ghost whole: { plan_end words.now ≤ length words.now },
    ghost few: { Few (plan_in words.now) },
}

impl<'a> Counted<'a> {
    pub(crate) fn of(words: &'a [u64]) -> Counted<'a>
        requires whole { Whole words.now }
        requires few { Few (plan_in words.now) }
        ensures { result.words.now ≡ words.now }
    {
        Counted { words }
    }

    pub(crate) fn draft(self) -> Draft<'a>
        ensures { result.words.now ≡ self.entry.words.now }
    {
        Draft::of(self.words)
    }
}
