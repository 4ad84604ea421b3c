// Updates for C.
ghost use Rattle.std.specs.Prelude.{◌≡◌};
ghost use Rattle.updates.specs.declared.update.Update.TheVariants.{Delay, Cancel, Extra};
ghost use Rattle.updates.specs.Updates.{Updated};
ghost use Rattle.cabi.specs.Codes.{Coded};

use crate::code::code;
use plan::leg::Leg;
use plan::name::LegName;
use updates::applying::{cancel, delay, extra};

// The legs of a run from a number on are so many minutes later.
#[unsafe(no_mangle)]
pub extern "C" fn yew_delay(plan: &mut [u64], run: u64, number: u64, minutes: u64) -> u64
    ensures { Coded (λ r. Updated plan.old (Delay (record { run = run; number = number }) minutes) r plan.new) result }
{
    code(delay(plan, LegName { run, number }, minutes))
}

// A leg is gone.
#[unsafe(no_mangle)]
pub extern "C" fn yew_cancel(plan: &mut [u64], run: u64, number: u64) -> u64
    ensures { Coded (λ r. Updated plan.old (Cancel (record { run = run; number = number })) r plan.new) result }
{
    code(cancel(plan, LegName { run, number }))
}

// A leg more.
#[unsafe(no_mangle)]
pub extern "C" fn yew_extra(
    plan: &mut [u64],
    run: u64,
    number: u64,
    from: u64,
    to: u64,
    leaves: u64,
    comes: u64,
) -> u64
    ensures { Coded (λ r. Updated plan.old
        (Extra (record { run = run; number = number; from = from; to = to; leaves = leaves; comes = comes }))
        r plan.new) result }
{
    let leg = Leg {
        run,
        number,
        from,
        to,
        leaves,
        comes,
    };
    code(extra(plan, leg))
}
