// Updates of a plan, done in the memory that holds it. A refused one leaves all of it as it was.
ghost use Rattle.plan.specs.Sound.{Usable};
ghost use Rattle.updates.specs.declared.update.Update.TheVariants.{Delay, Cancel, Extra};
ghost use Rattle.updates.specs.Updates.{Applied, Updated};

use crate::adding::extra_checked;
use crate::cancelling::cancel_checked;
use crate::delaying::delay_checked;
use crate::update::Update;
use plan::checking::check;
use plan::leg::Leg;
use plan::name::LegName;
use plan::refusal::Refusal;
use plan::timetable::Timetable;

// An update of a plan that was checked before. The plan may still be used, so nothing of it need be checked again.
pub fn apply_checked(plan: &mut [u64], update: Update) -> Result<(), Refusal>
    requires { Usable plan.old }
    ensures { Applied plan.old update result plan.new }
{
    match update {
        Update::Delay { from, minutes } => delay_checked(plan, from, minutes),
        Update::Cancel(name) => cancel_checked(plan, name),
        Update::Extra(leg) => extra_checked(plan, leg),
    }
}

// An update of the plan in lent memory: how many legs the plan now has, or why the update is refused.
pub fn apply(plan: &mut [u64], update: Update) -> Result<u64, Refusal>
    ensures { Updated plan.old update result plan.new }
{
    let _ = check(plan)?;
    apply_checked(plan, update)?;
    Ok(Timetable::of(plan).legs() as u64)
}

// Each leg of the run from this one on leaves and comes so many minutes later.
pub fn delay(plan: &mut [u64], from: LegName, minutes: u64) -> Result<u64, Refusal>
    ensures { Updated plan.old (Delay from minutes) result plan.new }
{
    apply(plan, Update::Delay { from, minutes })
}

// The leg of this name is gone.
pub fn cancel(plan: &mut [u64], name: LegName) -> Result<u64, Refusal>
    ensures { Updated plan.old (Cancel name) result plan.new }
{
    apply(plan, Update::Cancel(name))
}

// There is a leg more, behind the others.
pub fn extra(plan: &mut [u64], leg: Leg) -> Result<u64, Refusal>
    ensures { Updated plan.old (Extra leg) result plan.new }
{
    apply(plan, Update::Extra(leg))
}
