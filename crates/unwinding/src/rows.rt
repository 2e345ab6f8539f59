// The rows that the passes go over.
ghost use Rattle.std.specs.Prelude.{◌≡◌, ◌<◌};
ghost use Rattle.words.specs.Lists.{word_at};
ghost use Rattle.rules.specs.Numbers.{row_words};
ghost use Rattle.rules.specs.Layout.{used as used_rows, row, related_row, hours_of};
ghost use Rattle.rules.specs.Moves.{is_confirmed};
ghost use Rattle.layout.specs.Profiles.{part_of};

use layout::entry::Entry;
use layout::ledger::Ledger;
use layout::profile::Profile;
use layout::row::Row;

// The rows in use of a sound ledger. Rows go by their number here: so do the marks, and a pass goes from a row to the one
// above by it.
#[derive(Clone, Copy)]
pub struct Rows<'a> {
    pub ledger: Ledger<'a>,
    pub used: usize,
    ghost used_value: { used ≡ used_rows ledger.words.now },
}

impl<'a> Rows<'a> {
    #[inline(always)]
    pub fn entry(self, n: usize) -> Entry<'a>
        requires { n < self.used }
        ensures ledger { result.ledger ≡ self.entry.ledger }
        ensures n { result.n ≡ n }
    {
        Entry {
            ledger: self.ledger,
            n,
        }
    }

    #[inline(always)]
    pub fn row(self, n: usize) -> Row<'a>
        requires { n < self.used }
        ensures words { result.words.now ≡ self.entry.ledger.words.now }
        ensures size { result.size ≡ self.entry.ledger.size }
        ensures n { result.n ≡ n }
    {
        self.ledger.reservation(n).row
    }

    // Word k of row n.
    #[inline(always)]
    pub fn word(self, n: usize, k: usize) -> u32
        requires n_bound { n < self.used }
        requires k_bound { k < row_words }
        ensures { let l = self.entry.ledger in result ≡ word_at (row l.size.hours l.words.now n) k }
    {
        self.row(n).word(k)
    }

    #[inline(always)]
    pub fn is_confirmed(self, n: usize) -> bool
        requires { n < self.used }
        ensures { let l = self.entry.ledger in result ≡ is_confirmed (row l.size.hours l.words.now n) }
    {
        self.row(n).is_confirmed()
    }

    // The row that row n is related to.
    #[inline(always)]
    pub fn related(self, n: usize) -> usize
        requires { n < self.used }
        ensures { let l = self.entry.ledger in result ≡ related_row l.size.hours l.words.now n }
    {
        self.row(n).related_row()
    }

    // Row n's hours of profile p.
    #[inline(always)]
    pub fn hours(self, n: usize, p: Profile) -> &'a [u32]
        requires { n < self.used }
        ensures { let l = self.entry.ledger in
            result.now ≡ hours_of l.size.hours (part_of p) 0 l.size.hours (row l.size.hours l.words.now n) }
    {
        self.row(n).hours(p, 0, self.ledger.size.hours)
    }
}
