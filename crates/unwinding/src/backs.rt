// What was given back to a row by those that are marked.
ghost use Rattle.std.specs.Prelude.{◌≡◌, ◌<◌, length};
ghost use Rattle.rules.proofs.Unwound.{gave_to, given_back};
ghost use Rattle.words.specs.Sums.{Adds, Summed};
ghost use Rattle.opening.specs.Shares.{most_sum, Sums};
ghost use Rattle.unwinding.specs.Marks.{marked};

use crate::marks::{RowMarks, gives_to};
use crate::rows::Rows;
use layout::profile::Profile;
use opening::sums::add_profile;

impl<'a> Rows<'a> {
    // What row j gave back to row m is added.
    #[inline(always)]
    fn add_gave(self, sums: &mut [u32], marks: &RowMarks, m: usize, j: usize)
        requires j_bound { j < self.used }
        requires sums { Sums self.ledger.size.hours most_sum sums.old }
        ensures { let hours = self.entry.ledger.size.hours in
            let words = self.entry.ledger.words.now in
            Adds (λ h. gave_to hours words (marked marks.now) m h j) sums.old sums.new }
    {
        if marks.has(j) && gives_to(self.row(j), m) {
            add_profile(sums, self.entry(j), Profile::Granted);
        }
    }

    // The sums become what was given back to row m.
    pub fn sum_back(self, sums: &mut [u32], marks: &RowMarks, m: usize)
        requires { length sums.old ≡ self.ledger.size.hours }
        ensures { let hours = self.entry.ledger.size.hours in
            let words = self.entry.ledger.words.now in
            Summed hours (λ h. given_back hours words (marked marks.now) m h) sums.new }
    {
        words::clear(sums);
        for j in 0..self.used {
            self.add_gave(sums, marks, m, j);
        }
    }
}
