// A reply in one number.
ghost use Rattle.std.specs.Prelude.{◌≡◌};
ghost use Rattle.cabi.specs.Codes.{refusal_code, code_of};

use plan::refusal::Refusal;

// The forty low bits are the place: a number above them, and the highest place that they hold.
const NUMBER: u64 = 1_099_511_627_776;

const LAST_PLACE: u64 = 1_099_511_627_775;

pub fn refusal_code(refusal: Refusal) -> u64
    ensures { result ≡ refusal_code refusal }
{
    refusal.number() * NUMBER + refusal.place().min(LAST_PLACE)
}

// 0 where it is done, else the refusal's number and place.
pub fn code(reply: Result<u64, Refusal>) -> u64
    ensures { result ≡ code_of reply }
{
    match reply {
        Ok(_) => 0,
        Err(refusal) => refusal_code(refusal),
    }
}
