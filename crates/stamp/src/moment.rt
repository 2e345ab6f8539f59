// The second of a zone as a stamp spells it.
ghost use Rattle.stamp.specs.Steps.{Ranged};
ghost use Rattle.stamp.specs.Zones.{code};

use crate::calendar::{self, MONTHS_OF_YEAR};
use crate::zone::Zone;
use crate::{DAY, HOUR, MINUTE, STAMP_LENGTH, numbers};

// The first two digits of the years.
const CENTURY: u32 = 20;

const LAST_YEAR: u32 = 99;

const LAST_HOUR: u32 = 23;

const LAST_MINUTE: u32 = 59;

const LAST_SECOND: u32 = 59;

// The last two digits of the year, month and day from 1 on, the time and the zone, all in range.
#[derive(Clone, Copy)]
pub struct Moment {
    year: u32,
    month: u32,
    day: u32,
    hour: u32,
    minute: u32,
    second: u32,
    zone: Zone,
    ghost ranged: { Ranged (record { century = 20; year = year; month = month; day = day; hour = hour; minute = minute; second = second; zone = code zone }) },
}

impl Moment {
    ghost use Rattle.std.specs.Prelude.{◌≡◌, ◌<◌};
    ghost use Rattle.stamp.specs.Stamp.{fields_at, bytes_of, second_of, all_seconds};
    ghost use Rattle.stamp.specs.Moments.{fields, MomentRead};

    // The moment that sixteen bytes spell.
    #[tactic(auto, using(crate::proofs::Months::days_most, crate::proofs::Ranges::range_cases), unfolding(crate::specs::Stamp::fields_of))]
    pub fn read(bytes: &[u8; STAMP_LENGTH]) -> Option<Moment>
        ensures { MomentRead bytes.now result }
    {
        numbers::number_in([bytes[0], bytes[1]], CENTURY, CENTURY)?;
        let year = numbers::number_in([bytes[2], bytes[3]], 0, LAST_YEAR)?;
        let month = numbers::number_in([bytes[4], bytes[5]], 1, MONTHS_OF_YEAR)?;
        let last_day = calendar::days_in(MONTHS_OF_YEAR * year + (month - 1));
        let day = numbers::number_in([bytes[6], bytes[7]], 1, last_day)?;
        let hour = numbers::number_in([bytes[8], bytes[9]], 0, LAST_HOUR)?;
        let minute = numbers::number_in([bytes[10], bytes[11]], 0, LAST_MINUTE)?;
        let second = numbers::number_in([bytes[12], bytes[13]], 0, LAST_SECOND)?;
        let zone = Zone::with_letters(bytes[14], bytes[15])?;
        Some(Moment {
            year,
            month,
            day,
            hour,
            minute,
            second,
            zone,
        })
    }

    // The moment of a second that is counted in the zone.
    #[tactic(auto, using(crate::proofs::Dates::at_fields))]
    pub fn at(local: u32, zone: Zone) -> Moment
        requires { local < all_seconds }
        ensures { fields result ≡ fields_at local (code zone) }
    {
        let day = local / DAY;
        let month = calendar::month_of(day);
        Moment {
            year: month / MONTHS_OF_YEAR,
            month: month % MONTHS_OF_YEAR + 1,
            day: day - calendar::days_before(month) + 1,
            hour: local % DAY / HOUR,
            minute: local % HOUR / MINUTE,
            second: local % MINUTE,
            zone,
        }
    }

    // The second in UT: the second in the zone, and those that the zone is behind.
    #[tactic(auto, using(crate::proofs::Months::days_most), unfolding(crate::specs::Stamp::second_of, crate::specs::Stamp::local_second, crate::specs::Stamp::day_in))]
    pub fn second(self) -> u32
        ensures { result ≡ second_of (fields self) }
    {
        let month = MONTHS_OF_YEAR * self.year + (self.month - 1);
        let day = calendar::days_before(month) + (self.day - 1);
        let local = day * DAY + self.hour * HOUR + self.minute * MINUTE + self.second;
        local + self.zone.offset()
    }

    // The sixteen bytes.
    #[tactic(auto, using(crate::proofs::Months::days_most), unfolding(crate::specs::Stamp::bytes_of))]
    pub fn to_bytes(self) -> [u8; STAMP_LENGTH]
        ensures { result ≡ bytes_of (fields self) }
    {
        let [year1, year2] = numbers::digits_of(CENTURY);
        let [year3, year4] = numbers::digits_of(self.year);
        let [month1, month2] = numbers::digits_of(self.month);
        let [day1, day2] = numbers::digits_of(self.day);
        let [hour1, hour2] = numbers::digits_of(self.hour);
        let [minute1, minute2] = numbers::digits_of(self.minute);
        let [second1, second2] = numbers::digits_of(self.second);
        let [zone1, zone2] = self.zone.letters();
        [
            year1, year2, year3, year4, month1, month2, day1, day2, hour1, hour2, minute1, minute2,
            second1, second2, zone1, zone2,
        ]
    }
}
