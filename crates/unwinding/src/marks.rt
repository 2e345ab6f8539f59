// The rows that are annulled so far have a mark: what is left of the others.
ghost use Rattle.std.specs.Prelude.{◌≡◌, ◌&&◌, ◌<◌, eqb, Bool, List};
ghost use Rattle.rules.specs.Numbers.{most_rows};
ghost use Rattle.rules.specs.Layout.{row, path};
ghost use Rattle.rules.proofs.After.{counts_by};
ghost use Rattle.rules.proofs.Unwound.{adding, none, stays as is_staying, gives as is_giving, gives_to};
ghost use Rattle.unwinding.specs.Marks.{marked};

use crate::rows::Rows;
use layout::class::is_original;
use layout::numbers::{MOST_ROWS, NONFIRM_REDIRECT, PATH, REQTYPE};
use layout::row::Row;
use std::marker::Model;

// A mark for each row, for the most rows, since the library has no heap: contracts see the list of them.
#[derive(Drop)]
pub struct RowMarks {
    rows: [bool; MOST_ROWS as usize],
}

impl Model for RowMarks {
    ghost Value = { List Bool };

    ghost view = { λ m. m.rows };
}

impl RowMarks {
    pub fn none() -> RowMarks
        ensures { marked result ≡ none }
    {
        RowMarks {
            rows: [false; MOST_ROWS as usize],
        }
    }

    #[inline(always)]
    #[tactic(auto, unfolding(crate::specs::Marks::marked))]
    pub fn has(&self, n: usize) -> bool
        requires { n < most_rows }
        ensures { result ≡ marked self.now n }
    {
        self.rows[n]
    }

    #[tactic(auto, using(crate::proofs::Marked::marked_more))]
    pub fn add(&mut self, n: usize)
        requires { n < most_rows }
        ensures { marked self.new ≡ adding (marked self.old) n }
    {
        self.rows[n] = true;
    }
}

// The row is still CONFIRMED.
#[inline(always)]
#[tactic(auto, unfolding(rules::proofs::Unwound::stays))]
pub fn stays(row: Row, marks: &RowMarks) -> bool
    ensures { let r = row.entry in result ≡ is_staying r.size.hours r.words.now (marked marks.now) r.n }
{
    row.is_confirmed() && !marks.has(row.n)
}

// The row gives its granted back as it is annulled; to row m.

#[inline(always)]
#[tactic(auto, unfolding(rules::proofs::Unwound::gives))]
pub fn gives(row: Row) -> bool
    ensures { let r = row.entry in result ≡ is_giving r.size.hours r.words.now r.n }
{
    row.is_confirmed() && !is_original(row.word(REQTYPE))
}

#[inline(always)]
#[tactic(auto, unfolding(rules::proofs::Unwound::gives_to))]
pub fn gives_to(row: Row, m: usize) -> bool
    ensures { let r = row.entry in result ≡ gives_to r.size.hours r.words.now r.n m }
{
    gives(row) && row.related_row() == m
}

impl<'a> Rows<'a> {
    // It is so and of path x.
    fn stays_on(self, marks: &RowMarks, x: u32, m: usize) -> bool
        requires { m < self.used }
        ensures { let hours = self.entry.ledger.size.hours in
            let words = self.entry.ledger.words.now in
            result ≡ (is_staying hours words (marked marks.now) m && eqb (path (row hours words m)) x) }
    {
        stays(self.row(m), marks) && self.word(m, PATH) == x
    }

    // Row m is in the use of path x.
    #[inline(always)]
    #[tactic(auto, unfolding(rules::proofs::After::counts_by), using(crate::proofs::Counted::redirect_above))]
    pub fn counts(self, marks: &RowMarks, x: u32, m: usize) -> bool
        requires { m < self.used }
        ensures { let hours = self.entry.ledger.size.hours in
            let words = self.entry.ledger.words.now in
            result ≡ counts_by hours words (is_staying hours words (marked marks.now)) x m }
    {
        stays(self.row(m), marks)
            && (self.word(m, PATH) == x
                || self.word(m, REQTYPE) == NONFIRM_REDIRECT
                    && self.stays_on(marks, x, self.related(m)))
    }
}
