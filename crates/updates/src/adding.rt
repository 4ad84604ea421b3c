// Extra legs: one more, behind the others, if its name is not taken and there is room.
ghost use Rattle.std.specs.Prelude.{◌≡◌, length};
ghost use Rattle.plan.specs.Sound.{Few, Usable};
ghost use Rattle.plan.specs.Words.{plan_in};
ghost use Rattle.updates.specs.declared.update.Update.TheVariants.{Extra};
ghost use Rattle.updates.specs.Updates.{known, update_checked, Applied};

use crate::cancelling::find;
use plan::bounds::MOST_LEGS;
use plan::leg::Leg;
use plan::name::LegName;
use plan::refusal::Refusal;
use plan::timetable::Timetable;
use plan::writing::{add_leg, has_room};

fn is_known(table: Timetable<'_>, name: LegName) -> bool
    ensures { result ≡ known name (plan_in table.entry.words.now).legs }
{
    find(table, name).is_some()
}

fn check_extra(table: Timetable<'_>, leg: Leg) -> Result<(), Refusal>
    requires { Few (plan_in table.words.now) }
    ensures { result ≡ update_checked (plan_in table.entry.words.now) (Extra leg) }
{
    let legs = table.legs();
    if !leg.is_within(table.piers() as u64) {
        return Err(Refusal::BadLeg(legs as u16));
    }
    if is_known(table, leg.name()) {
        return Err(Refusal::Taken(leg.number));
    }
    if legs >= MOST_LEGS {
        return Err(Refusal::Full(MOST_LEGS as u64));
    }
    Ok(())
}

pub(crate) fn extra_checked(plan: &mut [u64], leg: Leg) -> Result<(), Refusal>
    requires { Usable plan.old }
    ensures { Applied plan.old (Extra leg) result plan.new }
{
    check_extra(Timetable::of(plan), leg)?;
    if !has_room(plan) {
        return Err(Refusal::Short);
    }
    add_leg(plan, leg);
    Ok(())
}
