// The profiles of a row, in order, and where their hours lie in it.
ghost use Rattle.std.specs.Prelude.{◌≡◌, ◌+◌, ◌<◌, ◌≤◌};
ghost use Rattle.rules.specs.Numbers.{profiles};
ghost use Rattle.layout.specs.Places.{HoursAt};
ghost use Rattle.layout.specs.Profiles.{part_of};

use crate::numbers::ROW_WORDS;
use crate::size::Size;

#[derive(Clone, Copy, Debug, PartialEq, Eq)]
pub enum Profile {
    Requested,
    Granted,
    Available,
    Displaced,
    Reduced,
}

impl Profile {
    // Which of the five it is, from 0. No `From`, which could not say that there are five.
    #[inline(always)]
    pub fn part(self) -> usize
        ensures value { result ≡ part_of self }
        ensures below { result < profiles }
    {
        self as usize
    }

    // Where hours of the profile start in a row.
    #[inline(always)]
    pub fn hours_at(self, size: Size, start: usize, count: usize) -> usize
        requires { start + count ≤ size.hours }
        ensures { HoursAt size.hours (part_of self) start count result }
    {
        ROW_WORDS + self.part() * size.hours + start
    }
}
