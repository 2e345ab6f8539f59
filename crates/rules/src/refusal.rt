// Why a call or an action is not carried out.
ghost use Rattle.std.specs.Prelude.{◌≡◌};
ghost use Rattle.rules.specs.Refusals.{refusal_number, number_of};
ghost use Rattle.rules.specs.declared.refusal.Refusal.TheVariants.{OutOfRange};

use crate::kind::UnknownKind;
use std::error::Error;
use std::fmt;

#[derive(Clone, Copy, Debug, PartialEq, Eq)]
pub enum Refusal {
    Unsound = 1,
    OutOfRange = 2,
    WrongParty = 3,
    NoReference = 4,
    WrongTime = 5,
    WrongSpan = 6,
    WrongProfile = 7,
    NoRowLeft = 8,
    WrongRelated = 9,
    WrongFlags = 10,
    WrongMove = 11,
    WrongPrice = 12,
    Unapproved = 13,
    Short = 14,
    PartlyUsed = 15,
    TooEarly = 16,
    FewerAnswers = 17,
    Unbalanced = 20,
    WrongPath = 21,
    OverPosted = 22,
    TermOutOfRange = 25,
}

impl From<Refusal> for u32 {
    ghost from_gives = { λ refusal number. number ≡ refusal_number refusal };

    fn from(refusal: Refusal) -> u32 {
        refusal as u32
    }
}

// A number that no kind has is out of range.
impl From<UnknownKind> for Refusal {
    ghost from_gives = { λ _ refusal. refusal ≡ OutOfRange };

    fn from(_kind: UnknownKind) -> Self {
        Self::OutOfRange
    }
}

impl fmt::Display for Refusal {
    fn fmt<W: fmt::Write>(&self, f: &mut fmt::Formatter<W>) -> fmt::Result {
        f.write_str(match self {
            Refusal::Unsound => "ledger or postings unsound",
            Refusal::OutOfRange => "kind, type or status out of range",
            Refusal::WrongParty => "not a party that may do this",
            Refusal::NoReference => "no such reference",
            Refusal::WrongTime => "time below now or past 2099",
            Refusal::WrongSpan => "not a span of the ledger's hours",
            Refusal::WrongProfile => "profile does not fit",
            Refusal::NoRowLeft => "no row left",
            Refusal::WrongRelated => "not a row to be related to",
            Refusal::WrongFlags => "flags do not fit",
            Refusal::WrongMove => "not a move from this status",
            Refusal::WrongPrice => "price or megawatts do not fit",
            Refusal::Unapproved => "not approved",
            Refusal::Short => "available short in an hour",
            Refusal::PartlyUsed => "granted is partly used",
            Refusal::TooEarly => "limit not reached",
            Refusal::FewerAnswers => "fewer places for answers than actions",
            Refusal::Unbalanced => "megawatts do not balance in an hour",
            Refusal::WrongPath => "path does not fit",
            Refusal::OverPosted => "use of a path over what is posted",
            Refusal::TermOutOfRange => "term out of range",
        })
    }
}

impl Error for Refusal {}

// The number of an outcome: 0 where it is carried out.
pub fn number_of<A: Drop>(outcome: Result<A, Refusal>) -> u32
    ensures { result ≡ number_of outcome }
{
    match outcome {
        Ok(_) => 0,
        Err(refusal) => u32::from(refusal),
    }
}
