// What can happen to a plan.
use plan::leg::Leg;
use plan::name::LegName;

#[derive(Clone, Copy)]
pub enum Update {
    // Each leg of the run from this one on leaves and comes so many minutes later.
    Delay { from: LegName, minutes: u64 },
    // The leg of this name is gone.
    Cancel(LegName),
    // There is a leg more, behind the others.
    Extra(Leg),
}
