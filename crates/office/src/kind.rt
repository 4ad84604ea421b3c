// The kinds of request in a file, by the byte that stands before each.
ghost use Rattle.std.specs.Prelude.{◌≡◌, ◌≤◌};
ghost use Rattle.office.specs.Kinds.{kind_of, size_of};

use files::numbers::number_at;

#[derive(Clone, Copy)]
pub enum Kind {
    Question,
    Delay,
    Cancel,
    Extra,
    Still,
}

// No request has this byte for its kind.
#[derive(Clone, Copy)]
pub struct UnknownKind {
    pub byte: u8,
}

impl TryFrom<u8> for Kind {
    type Error = UnknownKind;

    ghost try_from_gives = { λ byte kind. kind ≡ kind_of byte };

    fn try_from(byte: u8) -> Result<Kind, UnknownKind> {
        match byte {
            0 => Ok(Kind::Question),
            1 => Ok(Kind::Delay),
            2 => Ok(Kind::Cancel),
            3 => Ok(Kind::Extra),
            4 => Ok(Kind::Still),
            _ => Err(UnknownKind { byte }),
        }
    }
}

impl Kind {
    // How many numbers a request of this kind has, which these bytes begin with.
    pub fn size(self, bytes: &[u8]) -> usize
        ensures value { result ≡ size_of self bytes.now }
        ensures bound { result ≤ 8589934593 }
    {
        match self {
            Kind::Question => 4,
            Kind::Delay => 3,
            Kind::Cancel => 2,
            Kind::Extra => 6,
            Kind::Still => still_size(bytes),
        }
    }
}

// An itinerary has a pier, a time, its count of legs, and two numbers for each of them.
fn still_size(bytes: &[u8]) -> usize
    ensures value { result ≡ size_of Kind.Still bytes.now }
    ensures bound { result ≤ 8589934593 }
{
    if bytes.len() < 12 {
        return 3;
    }
    let legs = number_at(bytes, 8);
    (3 + 2 * legs) as usize
}
