// How many rows and hours a ledger has, and where its words lie then.
ghost use Rattle.std.specs.Prelude.{◌≡◌, ◌+◌, ◌<◌, ◌≤◌};
ghost use Rattle.rules.specs.Numbers.{most_rows, most_hours};
ghost use Rattle.rules.specs.Layout.{row_size};
ghost use Rattle.layout.specs.Places.{RowAt, EndAt};

use crate::numbers::{HEAD_WORDS, PROFILES, ROW_WORDS};

#[derive(Clone, Copy)]
pub struct Size {
    pub rows: usize,
    pub hours: usize,
    ghost in_range: { (rows ≤ most_rows) × (hours ≤ most_hours) },
}

impl Size {
    // Words of a row, with its profiles.
    #[inline(always)]
    pub fn row_words(self) -> usize
        ensures { result ≡ row_size self.hours }
    {
        ROW_WORDS + PROFILES * self.hours
    }

    // Where row n starts.
    #[inline(always)]
    pub fn row_at(self, n: usize) -> usize
        requires { n < self.rows }
        ensures { RowAt self.rows self.hours n result }
    {
        HEAD_WORDS + n * self.row_words()
    }

    // Where row n starts, or a ledger of n rows ends: the same place, and another promise. One function for both would
    // say of a row that it lies in the ledger only if it does, and each caller would have to say so again.
    pub fn end_at(self, n: usize) -> usize
        requires { n ≤ most_rows }
        ensures { EndAt self.hours n result }
    {
        HEAD_WORDS + n * self.row_words()
    }
}
