// A row in use of a sound ledger.
ghost use Rattle.std.specs.Prelude.{◌≡◌, ◌<◌};
ghost use Rattle.rules.specs.Layout.{used as used_rows};

use crate::ledger::Ledger;
use crate::reservation::Reservation;
use crate::row::Row;

#[derive(Clone, Copy)]
pub struct Entry<'a> {
    pub ledger: Ledger<'a>,
    pub n: usize,
    ghost in_use: { n < used_rows ledger.words.now },
}

impl<'a> Entry<'a> {
    #[inline(always)]
    pub fn row(self) -> Row<'a>
        ensures words { result.words.now ≡ self.entry.ledger.words.now }
        ensures size { result.size ≡ self.entry.ledger.size }
        ensures n { result.n ≡ self.entry.n }
    {
        self.reservation().row
    }

    #[inline(always)]
    pub fn reservation(self) -> Reservation<'a>
        ensures words { result.row.words.now ≡ self.entry.ledger.words.now }
        ensures size { result.row.size ≡ self.entry.ledger.size }
        ensures n { result.row.n ≡ self.entry.n }
    {
        self.ledger.reservation(self.n)
    }
}
