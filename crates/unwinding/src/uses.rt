// Use of a path as a row goes. Sums and marks are lent beside the path: a struct of the three would hold two `&mut`, and
// would have to keep what is known of them at each write.
ghost use Rattle.std.specs.Prelude.{◌≡◌, true, ◌&&◌, ◌+◌, ◌<◌};
ghost use Rattle.words.specs.Lists.{word_at};
ghost use Rattle.rules.specs.Pick.{pick};
ghost use Rattle.rules.specs.Numbers.{granted_part};
ghost use Rattle.rules.specs.Layout.{row, hour_at, related_row};
ghost use Rattle.rules.specs.Moves.{is_confirmed};
ghost use Rattle.rules.proofs.After.{counts_by};
ghost use Rattle.rules.proofs.Unwound.{adding, stays as is_staying, gives as is_giving, use_unwound};
ghost use Rattle.layout.specs.Profiles.{part_of};
ghost use Rattle.words.specs.Sums.{Takes, Summed};
ghost use Rattle.opening.specs.Shares.{most_sum, Sums};
ghost use Rattle.unwinding.specs.Order.{freed as is_freed, freed_use};
ghost use Rattle.unwinding.specs.Marks.{marked, Going};
ghost use Rattle.unwinding.specs.Uses.{Holding, Lacking, Freeing, Shifted};

use crate::marks::{RowMarks, gives, stays};
use crate::rows::Rows;
use layout::numbers::{NONFIRM_REDIRECT, PATH, REQTYPE};
use layout::profile::Profile;
use opening::sums::add_profile;

impl<'a> Rows<'a> {
    // Profile p of row n is taken off.
    fn less_hours(self, sums: &mut [u32], n: usize, p: Profile)
        requires n_bound { n < self.used }
        requires holding { let hours = self.ledger.size.hours in
            let words = self.ledger.words.now in
            Holding hours (λ h. word_at (row hours words n) (hour_at hours (part_of p) h)) sums.old }
        ensures { let hours = self.entry.ledger.size.hours in
            let words = self.entry.ledger.words.now in
            Takes (λ h. word_at (row hours words n) (hour_at hours (part_of p) h)) sums.old sums.new }
    {
        words::subtract(sums, self.hours(n, p));
    }

    // Row m was in the use of path x, which is row n's, for the sake of row n.
    #[inline(always)]
    #[tactic(auto, unfolding(crate::specs::Order::freed))]
    fn freed(self, marks: &RowMarks, x: u32, n: usize, m: usize) -> bool
        requires { m < self.used }
        ensures { result ≡ is_freed self.entry.ledger.size.hours self.entry.ledger.words.now (marked marks.now) x n m }
    {
        self.word(m, REQTYPE) == NONFIRM_REDIRECT
            && self.related(m) == n
            && self.word(m, PATH) != x
            && stays(self.row(m), marks)
    }

    // Its available is taken off.
    #[inline(always)]
    fn free_row(self, sums: &mut [u32], marks: &RowMarks, x: u32, n: usize, m: usize)
        requires m_bound { m < self.used }
        requires freeing { Freeing self.ledger.size.hours self.ledger.words.now (marked marks.now) x n m sums.old }
        ensures { Freeing self.entry.ledger.size.hours self.entry.ledger.words.now (marked marks.now) x n (m + 1) sums.new }
    {
        if self.freed(marks, x, n, m) {
            self.less_hours(sums, m, Profile::Available);
        }
    }

    // Of all rows.
    fn free_rows(self, sums: &mut [u32], marks: &RowMarks, x: u32, n: usize)
        requires { Freeing self.ledger.size.hours self.ledger.words.now (marked marks.now) x n 0 sums.old }
        ensures { Freeing self.entry.ledger.size.hours self.entry.ledger.words.now (marked marks.now) x n self.entry.used sums.new }
    {
        for m in 0..self.used {
            self.free_row(sums, marks, x, n, m);
        }
    }

    // Where path x is row n's; of another path nothing is freed.
    fn free_redirects(self, sums: &mut [u32], marks: &RowMarks, x: u32, n: usize)
        requires going { Going self.ledger.size.hours self.ledger.words.now (marked marks.now) n }
        requires confirmed { is_confirmed (row self.ledger.size.hours self.ledger.words.now n) ≡ true }
        requires summed { let hours = self.ledger.size.hours in
            let words = self.ledger.words.now in
            Summed hours (λ h. use_unwound hours words (marked marks.now) x h) sums.old }
        ensures { let hours = self.entry.ledger.size.hours in
            let words = self.entry.ledger.words.now in
            Lacking hours
            (λ h. freed_use hours words (marked marks.now) x n h)
            (λ h. use_unwound hours words (marked marks.now) x h) sums.new }
    {
        if self.word(n, PATH) == x {
            self.free_rows(sums, marks, x, n);
        }
    }

    // Granted of row n goes off the sums if it counted, and comes to them if it came back to a row that counts.
    fn shift(self, sums: &mut [u32], n: usize, counted: bool, back: bool)
        requires n_bound { n < self.used }
        requires sums { Sums self.ledger.size.hours most_sum sums.old }
        requires holding { let hours = self.ledger.size.hours in
            let words = self.ledger.words.now in
            Holding hours (λ h. pick counted (word_at (row hours words n) (hour_at hours granted_part h)) 0) sums.old }
        ensures { let hours = self.entry.ledger.size.hours in
            let words = self.entry.ledger.words.now in
            Shifted (λ h. word_at (row hours words n) (hour_at hours granted_part h)) counted back sums.old sums.new }
    {
        match (counted, back) {
            (true, false) => self.less_hours(sums, n, Profile::Granted),
            (false, true) => add_profile(sums, self.entry(n), Profile::Granted),
            _ => {}
        }
    }

    // Row n, which is marked, gave its granted back to a row that is in the use of path x.
    #[tactic(auto, using(crate::proofs::Counted::gives_above))]
    fn came_back(self, marks: &RowMarks, x: u32, n: usize) -> bool
        requires { n < self.used }
        ensures { let hours = self.entry.ledger.size.hours in
            let words = self.entry.ledger.words.now in
            result ≡ (is_giving hours words n
            && counts_by hours words (is_staying hours words (marked marks.now)) x (related_row hours words n)) }
    {
        gives(self.row(n)) && self.counts(marks, x, self.related(n))
    }

    // A CONFIRMED row n goes: it is marked, and the sums, use of path x, follow.
    fn unwind_confirmed(self, sums: &mut [u32], marks: &mut RowMarks, x: u32, n: usize)
        requires going { Going self.ledger.size.hours self.ledger.words.now (marked marks.old) n }
        requires confirmed { is_confirmed (row self.ledger.size.hours self.ledger.words.now n) ≡ true }
        requires summed { let hours = self.ledger.size.hours in
            let words = self.ledger.words.now in
            Summed hours (λ h. use_unwound hours words (marked marks.old) x h) sums.old }
        ensures marks { marked marks.new ≡ adding (marked marks.old) n }
        ensures sums { let hours = self.entry.ledger.size.hours in
            let words = self.entry.ledger.words.now in
            Summed hours (λ h. use_unwound hours words (adding (marked marks.old) n) x h) sums.new }
    {
        let counted = self.counts(marks, x, n);
        self.free_redirects(sums, marks, x, n);
        marks.add(n);
        let back = self.came_back(marks, x, n);
        self.shift(sums, n, counted, back);
    }

    // Any row; an open one is in no use.
    pub fn unwind_row(self, sums: &mut [u32], marks: &mut RowMarks, x: u32, n: usize)
        requires going { Going self.ledger.size.hours self.ledger.words.now (marked marks.old) n }
        requires summed { let hours = self.ledger.size.hours in
            let words = self.ledger.words.now in
            Summed hours (λ h. use_unwound hours words (marked marks.old) x h) sums.old }
        ensures marks { marked marks.new ≡ adding (marked marks.old) n }
        ensures sums { let hours = self.entry.ledger.size.hours in
            let words = self.entry.ledger.words.now in
            Summed hours (λ h. use_unwound hours words (adding (marked marks.old) n) x h) sums.new }
    {
        if self.is_confirmed(n) {
            self.unwind_confirmed(sums, marks, x, n);
        } else {
            marks.add(n);
        }
    }
}
