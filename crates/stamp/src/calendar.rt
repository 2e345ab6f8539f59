// The days before a month and in it, and the month of a day. Months count from 0, January 2000, and days from 0,
// 2000-01-01.
ghost use Rattle.std.specs.Prelude.{◌≡◌, ◌<◌, ◌≤◌};
ghost use Rattle.stamp.specs.Calendar.{days_in, all_months, all_days};
ghost use Rattle.stamp.specs.Steps.{Before, MonthFound};

use crate::table;

pub const MONTHS_OF_YEAR: u32 = 12;

// The months of the years 2000 to 2099, and their days.
const ALL_MONTHS: u32 = 1200;

pub const ALL_DAYS: u32 = 36525;

// The days before a month, or before the end of 2099.
#[tactic(auto, using(crate::proofs::Months::all_days_lem, crate::proofs::Months::later_month))]
pub fn days_before(month: u32) -> u32
    requires { month ≤ all_months }
    ensures { Before month result }
{
    if month == ALL_MONTHS {
        return ALL_DAYS;
    }
    table::month_table()[month as usize]
}

// The days of a month.
#[tactic(auto, using(crate::proofs::Months::month_after))]
pub fn days_in(month: u32) -> u32
    requires { month < all_months }
    ensures { result ≡ days_in month }
{
    days_before(month + 1) - days_before(month)
}

// The month in which a day lies: the last that does not begin after it.
pub fn month_of(day: u32) -> u32
    requires { day < all_days }
    ensures { MonthFound day result }
{
    let begun = table::month_table().partition_point(|before| *before <= day);
    begun as u32 - 1
}
