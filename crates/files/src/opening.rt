// The plan that a file begins with: checked once, when the file is opened.
ghost use Rattle.std.specs.Prelude.{◌≡◌, true, IfOk, Ok, Err};
ghost use Rattle.files.specs.Numbers.{plan_words};
ghost use Rattle.plan.specs.Check.{plan_checked, sound_words};
ghost use Rattle.plan.specs.Sound.{Usable};

use crate::numbers::read_plan;
use plan::checking::check;
use plan::refusal::Refusal;
use std::alloc::{AllocError, Global};

// The words of the plan, if it may be used, or its refusal, which is what is told, and not a failure: only memory can be
// wanting.
pub fn open_plan(heap: Global, bytes: &[u8]) -> Result<Result<Vec<u64>, Refusal>, AllocError>
    ensures { IfOk result (λ o. elim o [ Ok v ↦ (v.items ≡ plan_words bytes.now) × Usable v.items × (sound_words v.items ≡ true) | Err e ↦ plan_checked (plan_words bytes.now) ≡ Err e ]) }
{
    let words = read_plan(heap, bytes)?;
    match check(&words) {
        Ok(_) => Ok(Ok(words)),
        Err(refusal) => Ok(Err(refusal)),
    }
}
