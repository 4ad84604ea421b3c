// Cancelled legs: a leg is found by its name, and taken out.
ghost use Rattle.plan.specs.Sound.{Usable};
ghost use Rattle.plan.specs.Words.{plan_in};
ghost use Rattle.updates.specs.declared.update.Update.TheVariants.{Cancel};
ghost use Rattle.updates.specs.Updates.{Found, Applied};

use plan::name::LegName;
use plan::refusal::Refusal;
use plan::timetable::Timetable;
use plan::writing::remove_leg;

// Where the leg of this name stands.
pub(crate) fn find(table: Timetable<'_>, name: LegName) -> Option<usize>
    ensures { Found (plan_in table.entry.words.now) name result }
{
    (0..table.legs()).find(|&i| table.leg(i).name() == name)
}

pub(crate) fn cancel_checked(plan: &mut [u64], name: LegName) -> Result<(), Refusal>
    requires { Usable plan.old }
    ensures { Applied plan.old (Cancel name) result plan.new }
{
    let Some(i) = find(Timetable::of(plan), name) else {
        return Err(Refusal::NoLeg(name.number));
    };
    remove_leg(plan, i);
    Ok(())
}
