// What a caller is told, in numbers: how many marks or legs were written, or why nothing was done.
ghost use Rattle.std.specs.Prelude.{◌≡◌};
ghost use Rattle.rounds.specs.Entry.{reply_number, reply_value};

use plan::refusal::Refusal;

// 0 where it is done, else the refusal's number.
pub fn number(reply: Result<u64, Refusal>) -> u64
    ensures { result ≡ reply_number reply }
{
    match reply {
        Ok(_) => 0,
        Err(refusal) => refusal.number(),
    }
}

// How many were written, or the refusal's place.
pub fn value(reply: Result<u64, Refusal>) -> u64
    ensures { result ≡ reply_value reply }
{
    match reply {
        Ok(count) => count,
        Err(refusal) => refusal.place(),
    }
}
