// The choice of a leg: the one that comes first of those that may stand there.
ghost use Rattle.std.specs.Prelude.{◌≡◌, ℕ, ◌<◌, true, length, Decides};
ghost use Rattle.plan.specs.Legs.{leg, piers};
ghost use Rattle.rounds.specs.Rows.{plan_of};
ghost use Rattle.itinerary.specs.Tracing.{prior, Final, first_of, Within, Stepped};
ghost use Rattle.itinerary.specs.Searching.{Near, Found};

use crate::order::before;
use crate::search::Search;
use crate::ways::{begins, boards, ends_at};
use journey::at::At;
use journey::steps::stays;
use marks::mark::Mark;

impl Search<'_> {
    // Of two places that there may be the one whose leg comes first.
    fn first_of(self, best: Option<usize>, found: Option<usize>) -> Option<usize>
        requires best { Within best (length self.layout.legs.now) }
        requires found { Within found (length self.layout.legs.now) }
        ensures { result ≡ first_of (plan_of self.entry.layout) best found }
    {
        match (best, found) {
            (Some(y), Some(x)) if !before(self.layout.legs[x], self.layout.legs[y]) => best,
            (_, Some(_)) => found,
            (_, None) => best,
        }
    }

    // The leg at `x` may be the last of a journey that reaches the mark. With fewer boats than the mark's nobody is
    // aboard of such a leg, or the mark would be none of the answer's.
    pub(crate) fn is_final(self, mark: Mark, x: usize) -> bool
        requires { x < length self.layout.legs.now }
        ensures { Decides result (Final (plan_of self.entry.layout) self.entry.question
            self.entry.level.now mark x) }
    {
        let (level, a) = (self.level[x], self.layout.legs[x]);
        let end = At {
            pier: self.question.to,
            time: mark.arrival,
        };
        level != 0 && u64::from(level) == mark.boats && ends_at(self.layout, a, end)
    }

    // The leg at `x` may be the one before the leg at `i`: one stays aboard with the same boats, or boards with one more.
    fn is_prior(self, i: usize, x: usize) -> bool
        requires at { i < length self.layout.legs.now }
        requires within { x < length self.layout.legs.now }
        ensures { result ≡ prior (plan_of self.entry.layout) self.entry.level.now i x }
    {
        let a = self.layout.legs[x];
        let b = self.layout.legs[i];
        let (level, next) = (self.level[x], self.level[i]);
        if level == next {
            return stays(a, b);
        }
        level != 0 && level < next && next - level == 1 && boards(self.layout, a, b)
    }

    // Of the legs that come to a pier and fit the one that comes first.
    fn find_at<F: Fn(usize) -> bool>(self, fits: &F, pier: usize) -> Option<usize>
        requires pier { pier < piers (plan_of self.layout) }
        requires fits { (x : ℕ) → x < length self.layout.legs.now → F.pre fits.now x }
        ensures { Found (plan_of self.entry.layout) (λ x. (leg (plan_of self.entry.layout) x).to ≡ pier) (F.post fits.now)
            (length self.entry.layout.legs.now) result }
    {
        let mut best = None;
        for x in self.arrivals.legs.of(pier) {
            if fits(x) {
                best = self.first_of(best, Some(x));
            }
        }
        best
    }

    // Of the legs that fit the one that comes first: one that comes to the pier, or to where a walk to it begins.
    pub(crate) fn find<F: Fn(usize) -> bool>(self, fits: F, pier: usize) -> Option<usize>
        requires pier { pier < piers (plan_of self.layout) }
        requires fits { (x : ℕ) → x < length self.layout.legs.now → F.pre fits x }
        ensures { Found (plan_of self.entry.layout)
            (λ x. Near (plan_of self.entry.layout) pier (leg (plan_of self.entry.layout) x).to) (F.post fits)
            (length self.entry.layout.legs.now) result }
    {
        let mut best = self.find_at(&fits, pier);
        for j in self.arrivals.walks.of(pier) {
            let from = self.layout.walk(j).from as usize;
            let found = self.find_at(&fits, from);
            best = self.first_of(best, found);
        }
        best
    }

    // One leg back from the leg at `i`, or none where the journey begins with it: what has no more legs comes first.
    pub(crate) fn step_back(self, i: usize) -> Option<usize>
        requires { i < length self.layout.legs.now }
        ensures { Stepped (plan_of self.entry.layout) self.entry.question
            self.entry.level.now i result }
    {
        let a = self.layout.legs[i];
        if self.level[i] == 1 && begins(self.layout, self.question, a) {
            return None;
        }
        self.find(|x| self.is_prior(i, x), a.from as usize)
    }
}
