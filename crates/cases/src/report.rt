// What is printed, and why a line fails.
use std::alloc::{AllocError, AllocFailed};
use std::error::Error;
use std::num::TryFromIntError;
use std::{fmt, io};

// Why a line, or the rest of the script, is not carried out as it should be.
#[derive(Clone, Copy, Debug, PartialEq, Eq)]
pub enum Unfit {
    Unreadable,
    Altered,
    LongLedger,
    LongPostings,
    LongScript,
    NoMemory(AllocError),
}

impl fmt::Display for Unfit {
    fn fmt<W: fmt::Write>(&self, f: &mut fmt::Formatter<W>) -> fmt::Result {
        f.write_str(match self {
            Unfit::Unreadable => "cannot be read",
            Unfit::Altered => "altered a word that must stay",
            Unfit::LongLedger => "longer than any ledger here",
            Unfit::LongPostings => "longer than any postings here",
            Unfit::LongScript => "the script is too long",
            Unfit::NoMemory(_) => "out of memory",
        })
    }
}

impl Error for Unfit {}

impl From<AllocError> for Unfit {
    fn from(error: AllocError) -> Unfit {
        Unfit::NoMemory(error)
    }
}

impl<T: Drop> From<AllocFailed<T>> for Unfit {
    fn from(error: AllocFailed<T>) -> Unfit {
        Unfit::NoMemory(AllocError::from(error))
    }
}

// A number that no word holds.
impl From<TryFromIntError> for Unfit {
    fn from(_: TryFromIntError) -> Unfit {
        Unfit::Unreadable
    }
}

// Numbers, each after a space.
#[derive(Drop)]
struct Numbers<'a>(&'a [u32]);

impl fmt::Display for Numbers<'_> {
    fn fmt<W: fmt::Write>(&self, f: &mut fmt::Formatter<W>) -> fmt::Result {
        for number in self.0 {
            write!(f, " {number}")?;
        }
        Ok(())
    }
}

// What came in place of what was expected.
#[derive(Drop)]
pub struct Difference {
    pub expected: Vec<u32>,
    pub got: Vec<u32>,
}

impl fmt::Display for Difference {
    fn fmt<W: fmt::Write>(&self, f: &mut fmt::Formatter<W>) -> fmt::Result {
        let expected = Numbers(&self.expected);
        let got = Numbers(&self.got);
        write!(f, "expected{expected}\n  got{got}")
    }
}

// Where a failure stands: the line that names its case, and its own.
#[derive(Clone, Copy)]
pub struct Place<'a> {
    pub case: &'a [u8],
    pub line: &'a [u8],
}

impl Place<'_> {
    // A failure here. The lines are printed as they stand in the script, whatever bytes they have.
    pub fn print_failure(&self, rt: &impl Print, why: &impl fmt::Display) -> io::Result<()> {
        rt.write_all(b"fails: ")?;
        rt.write_all(self.case)?;
        rt.write_all(b"\n  ")?;
        rt.write_all(self.line)?;
        println!(rt; "\n  {why}")
    }
}

// How many cases and actions there were, and how many lines failed.
#[derive(Clone, Copy, Default)]
pub struct Counts {
    pub cases: u32,
    pub actions: u32,
    pub failed: u32,
}

impl fmt::Display for Counts {
    fn fmt<W: fmt::Write>(&self, f: &mut fmt::Formatter<W>) -> fmt::Result {
        let Counts {
            cases,
            actions,
            failed,
        } = *self;
        write!(f, "cases {cases}\nactions {actions}\nfailed {failed}")
    }
}
