// Whether a row counts in the use of a path.
ghost use Rattle.std.specs.Prelude.{◌≡◌, ◌&&◌, eqb};
ghost use Rattle.rules.specs.Layout.{path};
ghost use Rattle.rules.proofs.After.{counts_by};
ghost use Rattle.layout.specs.Rows.{own};
ghost use Rattle.paths.specs.Changes.{confirmed_after};

use crate::change::Changed;
use layout::numbers::{CONFIRMED, NONFIRM_REDIRECT, PATH, REQTYPE, STATUS};
use layout::reservation::Reservation;
use layout::row::Row;

impl Changed {
    // The row is CONFIRMED after the change.
    #[inline(always)]
    #[tactic(auto, unfolding(crate::specs::Changes::confirmed_after, rules::specs::Moves::is_confirmed))]
    fn is_confirmed(self, row: Row) -> bool
        ensures { let row = row.entry in result ≡ confirmed_after row.size.hours row.words.now self row.n }
    {
        let now = row.word(STATUS) == CONFIRMED;
        match self {
            Changed::Nothing => now,
            Changed::Confirmed { row: own, .. } => row.n == own || now,
            Changed::Relinquished { record, .. } => row.n == record || now,
            Changed::Annulled { row: own, .. } => row.n != own && now,
        }
    }

    // It is so and of path x.
    #[inline(always)]
    fn is_holder(self, row: Row, x: u32) -> bool
        ensures { let row = row.entry in
            result ≡ (confirmed_after row.size.hours row.words.now self row.n && eqb (path (own row)) x) }
    {
        self.is_confirmed(row) && row.word(PATH) == x
    }

    // The row counts: it is of the path, or a type 5 that is related to such a row.
    #[inline(always)]
    #[tactic(auto, unfolding(rules::proofs::After::counts_by), using(rules::proofs::Types::derived_type))]
    pub fn counts(self, r: Reservation, x: u32) -> bool
        ensures { let row = r.entry.row in
            let hours = row.size.hours in
            result ≡ counts_by hours row.words.now (confirmed_after hours row.words.now self) x row.n }
    {
        if !self.is_confirmed(r.row) {
            return false;
        }
        if r.row.word(PATH) == x {
            return true;
        }
        if r.row.word(REQTYPE) != NONFIRM_REDIRECT {
            return false;
        }
        self.is_holder(r.related().row, x)
    }
}
