// The laws of plans as numbers.
ghost use Rattle.laws.specs.PlanLaws.{ReadsBack};

// A plan written down as numbers is read back as it was, whatever stands behind it.
pub fn plans_are_read_back() -> u8
    ensures { ReadsBack }
{
    0
}
