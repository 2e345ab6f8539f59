// Time stamps of 16 bytes, yyyymmddhhmmss and zone: read to seconds since 2000-01-01 00:00 UT, and written from them.
#![tactic(auto)]

mod calendar;
mod moment;
mod numbers;
mod table;
mod zone;

ghost use Rattle.std.specs.Prelude.{◌≡◌};
ghost use Rattle.stamp.specs.Stamp.{reading, comparison, write_number, written};
ghost use Rattle.stamp.specs.Outcomes.{reading_of, comparison_of, writing_number};

use moment::Moment;
use std::cmp::Ordering;
use std::error::Error;
use std::fmt;
use zone::{UnknownZone, Zone};

const STAMP_LENGTH: usize = 16;

const MINUTE: u32 = 60;

const HOUR: u32 = 60 * MINUTE;

const DAY: u32 = 24 * HOUR;

// The seconds of the years 2000 to 2099.
const ALL_SECONDS: u32 = calendar::ALL_DAYS * DAY;

// The bytes are no stamp, or one past the last second.
#[derive(Clone, Copy, Debug, PartialEq, Eq)]
pub struct NotRead;

impl fmt::Display for NotRead {
    fn fmt<W: fmt::Write>(&self, f: &mut fmt::Formatter<W>) -> fmt::Result {
        f.write_str("no stamp of the years 2000 to 2099")
    }
}

impl Error for NotRead {}

// The second or the zone is out of range, the local year is before 2000, or the slice is not of 16 bytes.
#[derive(Clone, Copy, Debug, PartialEq, Eq)]
pub struct NotWritten;

impl fmt::Display for NotWritten {
    fn fmt<W: fmt::Write>(&self, f: &mut fmt::Formatter<W>) -> fmt::Result {
        f.write_str("no stamp of the years 2000 to 2099 to write here")
    }
}

impl Error for NotWritten {}

impl From<UnknownZone> for NotWritten {
    fn from(_zone: UnknownZone) -> NotWritten {
        NotWritten
    }
}

// Reads a stamp: its second.
#[tactic(auto, using(crate::proofs::Readings::readings))]
pub fn read_stamp(bytes: &[u8]) -> Result<u32, NotRead>
    ensures { reading_of result ≡ reading bytes.now }
{
    let stamp = bytes.as_array().ok_or(NotRead)?;
    let moment = Moment::read(stamp).ok_or(NotRead)?;
    let ut = moment.second();
    if ALL_SECONDS <= ut {
        return Err(NotRead);
    }
    Ok(ut)
}

// Compares two stamps by their seconds, whatever their zones.
#[tactic(auto, using(crate::proofs::Comparing::comparisons))]
pub fn compare_stamps(first: &[u8], second: &[u8]) -> Result<Ordering, NotRead>
    ensures { comparison_of result ≡ comparison (reading first.now) (reading second.now) }
{
    let a = read_stamp(first)?;
    let b = read_stamp(second)?;
    Ok(a.cmp(&b))
}

// Writes the stamp of a second in a zone, which is given by its code. On a refusal nothing is written.
#[tactic(auto, using(crate::proofs::Writings::writings), unfolding(crate::specs::Stamp::stamp_of))]
pub fn write_stamp(bytes: &mut [u8], second: u32, zone: u32) -> Result<(), NotWritten>
    ensures number { writing_number result ≡ write_number bytes.old second zone }
    ensures stamp { bytes.new ≡ written bytes.old second zone }
{
    if ALL_SECONDS <= second {
        return Err(NotWritten);
    }
    let place = Zone::try_from(zone)?;
    let local = second.checked_sub(place.offset()).ok_or(NotWritten)?;
    let stamp = bytes.as_mut_array().ok_or(NotWritten)?;
    *stamp = Moment::at(local, place).to_bytes();
    Ok(())
}
