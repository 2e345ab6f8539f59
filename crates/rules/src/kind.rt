// The kinds of action.
ghost use Rattle.std.specs.Prelude.{◌≡◌};
ghost use Rattle.rules.specs.Kinds.{kind_code, Names};

use std::error::Error;
use std::fmt;

#[derive(Clone, Copy, Debug, PartialEq, Eq)]
pub enum Kind {
    Submit = 1,
    SellerStatus = 2,
    CustomerStatus = 3,
    Approve = 4,
    Reduce = 5,
    Lapse = 6,
    Clock = 7,
    Post = 8,
}

// A number that no kind has.
#[derive(Clone, Copy, Debug, PartialEq, Eq)]
pub struct UnknownKind(pub u32);

impl fmt::Display for UnknownKind {
    fn fmt<W: fmt::Write>(&self, f: &mut fmt::Formatter<W>) -> fmt::Result {
        write!(f, "no kind of action has number {}", self.0)
    }
}

impl Error for UnknownKind {}

impl From<Kind> for u32 {
    ghost from_gives = { λ kind code. code ≡ kind_code kind };

    fn from(kind: Kind) -> u32 {
        kind as u32
    }
}

impl TryFrom<u32> for Kind {
    type Error = UnknownKind;

    ghost try_from_gives = { Names };

    fn try_from(code: u32) -> Result<Self, UnknownKind> {
        match code {
            1 => Ok(Kind::Submit),
            2 => Ok(Kind::SellerStatus),
            3 => Ok(Kind::CustomerStatus),
            4 => Ok(Kind::Approve),
            5 => Ok(Kind::Reduce),
            6 => Ok(Kind::Lapse),
            7 => Ok(Kind::Clock),
            8 => Ok(Kind::Post),
            _ => Err(UnknownKind(code)),
        }
    }
}
