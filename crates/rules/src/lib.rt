// The hourly reservation ledger: what is asked of it, and what it answers. specs/ holds the rules.
#![tactic(auto)]

pub mod kind;
pub mod refusal;

ghost use Rattle.std.specs.Prelude.{◌≡◌, true, false, ◌<◌, MatchOption};
ghost use Rattle.rules.specs.Pick.{◌is_from◌to◌};
ghost use Rattle.rules.specs.Layout.{row_of};

pub use kind::Kind;
pub use refusal::{Refusal, number_of};

// A request to the ledger. Fields that its kind does not read are ignored. A profile is `length` words from `offset` on,
// of the words lent with it. Kind, type and status are words as C hands them in: any word is taken, and refused by number.
#[repr(C)]
#[derive(Clone, Copy, Debug, Default, PartialEq, Eq)]
pub struct Action {
    pub kind: u32,
    pub actor: u32,
    pub reference: u32,
    // REQUEST_TYPE
    pub reqtype: u32,
    pub status: u32,
    pub seller: u32,
    pub related: u32,
    pub start: u32,
    pub stop: u32,
    pub flags: u32,
    pub price: u32,
    pub time: u32,
    pub offset: u32,
    pub length: u32,
    // of a submission and of a posting
    pub path: u32,
}

// A number (0: accepted), and of an accepted action its reference, the status before and after, and the MW-hours moved:
// the five words that C is given, so the number is none of an enum.
#[repr(C)]
#[derive(Clone, Copy, Debug, Default, PartialEq, Eq)]
pub struct Answer {
    pub number: u32,
    pub reference: u32,
    pub before: u32,
    pub after: u32,
    pub moved: u32,
}

// A contest for a firm row, which its seller runs; challenger and holder are the greatest terms of the two, in hours.
#[derive(Clone, Copy, Debug, PartialEq, Eq)]
pub struct Contest {
    pub actor: u32,
    pub reference: u32,
    pub challenger: u32,
    pub holder: u32,
}

// How a contest ends: the challenger stopped; the holder yielded; a list of moves ran out; a move was refused.
#[derive(Clone, Copy, Debug, PartialEq, Eq)]
pub enum Ending {
    Kept,
    Lost,
    Unfinished,
    Refused,
}

// ASSIGNMENT_REF, from 1.
#[derive(Clone, Copy, Debug, PartialEq, Eq)]
pub struct Reference(pub u32);

// The number of a row, from 0: what a reference is turned into, so that the two are not exchanged there. Functions on
// rows that are in hand take the plain number.
#[derive(Clone, Copy, Debug, PartialEq, Eq)]
pub struct RowNumber(pub usize);

impl Reference {
    // Its row, if it is one of the first count.
    pub fn row(self, count: usize) -> Option<RowNumber>
        ensures { MatchOption result ((self.0 is_from 1 to count) ≡ false) (λ row.
            ((self.0 is_from 1 to count) ≡ true) × (row.0 ≡ row_of self.0) × (row.0 < count)) }
    {
        let number = self.0 as usize;
        (1..=count).contains(&number).then_some(row_of(self))
    }
}

// Reference n is row n - 1.
pub fn row_of(r: Reference) -> RowNumber
    ensures { result.0 ≡ row_of r.0 }
{
    RowNumber(r.0.saturating_sub(1) as usize)
}
