// The nine zones.
ghost use Rattle.std.specs.Prelude.{◌≡◌};
ghost use Rattle.stamp.specs.Stamp.{zone_of, letters as letters_number, letters_of};
ghost use Rattle.stamp.specs.Zones.{code, code_or_none, hours_behind, OfCode, Offset};

use crate::HOUR;
use std::error::Error;
use std::fmt;

// In the order of their codes, 0 to 8: UT, ES, ED, CS, CD, MS, MD, PS, PD.
#[derive(Clone, Copy, Debug, PartialEq, Eq)]
pub enum Zone {
    Universal,
    EasternStandard,
    EasternDaylight,
    CentralStandard,
    CentralDaylight,
    MountainStandard,
    MountainDaylight,
    PacificStandard,
    PacificDaylight,
}

// A code that no zone has.
#[derive(Clone, Copy, Debug, PartialEq, Eq)]
pub struct UnknownZone(pub u32);

impl fmt::Display for UnknownZone {
    fn fmt<W: fmt::Write>(&self, f: &mut fmt::Formatter<W>) -> fmt::Result {
        write!(f, "no zone has code {}", self.0)
    }
}

impl Error for UnknownZone {}

impl TryFrom<u32> for Zone {
    type Error = UnknownZone;

    ghost try_from_gives = { OfCode };

    fn try_from(code: u32) -> Result<Zone, UnknownZone> {
        match code {
            0 => Ok(Zone::Universal),
            1 => Ok(Zone::EasternStandard),
            2 => Ok(Zone::EasternDaylight),
            3 => Ok(Zone::CentralStandard),
            4 => Ok(Zone::CentralDaylight),
            5 => Ok(Zone::MountainStandard),
            6 => Ok(Zone::MountainDaylight),
            7 => Ok(Zone::PacificStandard),
            8 => Ok(Zone::PacificDaylight),
            _ => Err(UnknownZone(code)),
        }
    }
}

impl Zone {
    // The zone with these letters.
    #[tactic(auto, using(crate::proofs::Digits::zones_by_code))]
    pub fn with_letters(first: u8, second: u8) -> Option<Zone>
        ensures { code_or_none result ≡ zone_of (letters_number first second) }
    {
        match (first, second) {
            (b'U', b'T') => Some(Zone::Universal),
            (b'E', b'S') => Some(Zone::EasternStandard),
            (b'E', b'D') => Some(Zone::EasternDaylight),
            (b'C', b'S') => Some(Zone::CentralStandard),
            (b'C', b'D') => Some(Zone::CentralDaylight),
            (b'M', b'S') => Some(Zone::MountainStandard),
            (b'M', b'D') => Some(Zone::MountainDaylight),
            (b'P', b'S') => Some(Zone::PacificStandard),
            (b'P', b'D') => Some(Zone::PacificDaylight),
            _ => None,
        }
    }

    #[tactic(auto, unfolding(crate::specs::Stamp::zone_letters))]
    pub fn letters(self) -> [u8; 2]
        ensures { result ≡ letters_of (code self) }
    {
        match self {
            Zone::Universal => *b"UT",
            Zone::EasternStandard => *b"ES",
            Zone::EasternDaylight => *b"ED",
            Zone::CentralStandard => *b"CS",
            Zone::CentralDaylight => *b"CD",
            Zone::MountainStandard => *b"MS",
            Zone::MountainDaylight => *b"MD",
            Zone::PacificStandard => *b"PS",
            Zone::PacificDaylight => *b"PD",
        }
    }

    // The hours that it is behind UT.
    fn hours_behind(self) -> u32
        ensures { result ≡ hours_behind (code self) }
    {
        match self {
            Zone::Universal => 0,
            Zone::EasternDaylight => 4,
            Zone::EasternStandard | Zone::CentralDaylight => 5,
            Zone::CentralStandard | Zone::MountainDaylight => 6,
            Zone::MountainStandard | Zone::PacificDaylight => 7,
            Zone::PacificStandard => 8,
        }
    }

    // The seconds that it is behind UT.
    #[tactic(auto, using(crate::proofs::Zones::hours_most), unfolding(crate::specs::Stamp::offset))]
    pub fn offset(self) -> u32
        ensures { Offset (code self) result }
    {
        self.hours_behind() * HOUR
    }
}
