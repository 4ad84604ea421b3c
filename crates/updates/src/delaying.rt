// Delays: the legs of a run from a number on leave and come later.
ghost use Rattle.std.specs.Prelude.{◌≡◌, ◌+◌, ◌<◌, length, Ok, nat_lt};
ghost use Rattle.plan.specs.Legs.{time_bound};
ghost use Rattle.plan.specs.Words.{Whole, plan_in, written};
ghost use Rattle.plan.specs.Sound.{Few, Usable};
ghost use Rattle.updates.specs.declared.update.Update.TheVariants.{Delay};
ghost use Rattle.updates.specs.Updates.{touched, later, in_time, after, update_checked, Applied};

use plan::bounds::TIME_BOUND;
use plan::leg::Leg;
use plan::name::LegName;
use plan::refusal::Refusal;
use plan::timetable::Timetable;
use plan::words::leg_at;
use plan::writing::put_leg;

// A delay from a leg on touches this one: it is of the same run, and no earlier in it.
fn is_touched(leg: Leg, from: LegName) -> bool
    ensures { result ≡ touched from leg }
{
    leg.run == from.run && from.number <= leg.number
}

// So many minutes later the time is still within its bound. Nothing is added, since the sum could wrap.
fn stays_within(time: u64, minutes: u64) -> bool
    ensures { result ≡ nat_lt (time + minutes) time_bound }
{
    minutes < TIME_BOUND && time < TIME_BOUND - minutes
}

// The delay makes no time of the leg too late.
fn is_in_time(leg: Leg, from: LegName, minutes: u64) -> bool
    ensures { result ≡ in_time from minutes leg }
{
    !is_touched(leg, from) || stays_within(leg.leaves, minutes) && stays_within(leg.comes, minutes)
}

// The leg, so many minutes later.
fn later(leg: Leg, minutes: u64) -> Leg
    requires leaves { leg.leaves + minutes < time_bound }
    requires comes { leg.comes + minutes < time_bound }
    ensures { result ≡ later minutes leg }
{
    Leg {
        leaves: leg.leaves + minutes,
        comes: leg.comes + minutes,
        ..leg
    }
}

// The first leg that the delay would make too late.
fn check_delay(table: Timetable<'_>, from: LegName, minutes: u64) -> Result<(), Refusal>
    requires { Few (plan_in table.words.now) }
    ensures { result ≡ update_checked (plan_in table.entry.words.now) (Delay from minutes) }
{
    match (0..table.legs()).find(|&i| !is_in_time(table.leg(i), from, minutes)) {
        Some(i) => Err(Refusal::TooLate(i as u16)),
        None => Ok(()),
    }
}

// Each leg that the delay touches is written anew, in its place.
fn delay_legs(plan: &mut [u64], legs: usize, from: LegName, minutes: u64)
    requires whole { Whole plan.old }
    requires legs { legs ≡ length (plan_in plan.old).legs }
    requires in_time { update_checked (plan_in plan.old) (Delay from minutes) ≡ Ok tt }
    ensures { plan.new ≡ written (after (plan_in plan.old) (Delay from minutes)) plan.old }
{
    // By place, since the legs lie in the plan that is written.
    for i in 0..legs {
        let leg = leg_at(plan, i);
        if is_touched(leg, from) {
            put_leg(plan, i, later(leg, minutes));
        }
    }
}

pub(crate) fn delay_checked(plan: &mut [u64], from: LegName, minutes: u64) -> Result<(), Refusal>
    requires { Usable plan.old }
    ensures { Applied plan.old (Delay from minutes) result plan.new }
{
    let table = Timetable::of(plan);
    check_delay(table, from, minutes)?;
    let legs = table.legs();
    delay_legs(plan, legs, from, minutes);
    Ok(())
}
