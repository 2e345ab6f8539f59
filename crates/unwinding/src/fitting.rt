// The second pass: the last 1 of each row that was given something back late.
ghost use Rattle.std.specs.Prelude.{◌≡◌, not, ◌||◌, ◌+◌, ◌<◌, leb, length};
ghost use Rattle.words.specs.Lists.{word_at, all_below};
ghost use Rattle.rules.specs.Numbers.{most_megawatts, granted_part};
ghost use Rattle.rules.specs.Layout.{row, hour_at};
ghost use Rattle.rules.proofs.Unwound.{fits_in};
ghost use Rattle.unwinding.specs.Order.{all_fit};
ghost use Rattle.unwinding.specs.Marks.{marked, Marks};

use crate::marks::RowMarks;
use crate::moving::Moved;
use crate::rows::Rows;
use layout::entry::Entry;
use layout::numbers::{MOST_HOURS, MOST_MEGAWATTS};
use layout::profile::Profile;
use opening::sums::add_profile;

// Each of the sums is at most 100,000 more than the word of v. A fold over all, as the walks of `words`: one that leaves
// early tests a word at a time.
fn within_beyond(sums: &[u32], v: &[u32]) -> bool
    requires { length v.now ≡ length sums.now }
    ensures { result ≡ all_below (length sums.now) (λ h. leb (word_at sums.now h) (most_megawatts + word_at v.now h)) }
{
    sums.iter().zip(v).fold(
        true,
        |ok, (sum, own)| ok & (u64::from(*sum) <= u64::from(MOST_MEGAWATTS) + u64::from(*own)),
    )
}

impl<'a> Rows<'a> {
    // Of granted of row p.
    fn within_granted(self, sums: &[u32], p: usize) -> bool
        requires p_bound { p < self.used }
        requires sums_len { length sums.now ≡ self.ledger.size.hours }
        ensures { let hours = self.entry.ledger.size.hours in
            let words = self.entry.ledger.words.now in
            let own = row hours words p in
            result ≡ all_below hours (λ h.
            leb (word_at sums.now h) (most_megawatts + word_at own (hour_at hours granted_part h))) }
    {
        within_beyond(sums, self.hours(p, Profile::Granted))
    }

    // What came back to row p, which is not CONFIRMED any more, is within the bound.
    fn fits(self, marks: &RowMarks, p: usize) -> bool
        requires { p < self.used }
        ensures { let hours = self.entry.ledger.size.hours in
            let words = self.entry.ledger.words.now in
            result ≡ all_below hours (λ h. fits_in hours words (marked marks.now) p h) }
    {
        // No heap in the library: memory for the most hours.
        let mut buffer = [0u32; MOST_HOURS as usize];
        let sums = &mut buffer[..self.ledger.size.hours];
        self.sum_back(sums, marks, p);
        let entry = Entry {
            ledger: self.ledger,
            n: p,
        };
        add_profile(sums, entry, Profile::Displaced);
        if !self.is_confirmed(p) {
            return words::all_within(MOST_MEGAWATTS, sums);
        }
        add_profile(sums, entry, Profile::Available);
        self.within_granted(sums, p)
    }

    fn fits_late(self, moved: &Moved, p: usize) -> bool
        requires { p < self.used }
        ensures { let hours = self.entry.ledger.size.hours in
            let words = self.entry.ledger.words.now in
            result ≡ (not (marked moved.now.late p)
            || all_below hours (λ h. fits_in hours words (marked moved.now.gone) p h)) }
    {
        !moved.late.has(p) || self.fits(&moved.gone, p)
    }

    // All rows of the references are marked; the code reads the marks alone.
    pub fn all_fit(self, moved: &Moved, refs: &[u32]) -> bool
        requires { Marks refs.now moved.now.gone (length refs.now) }
        ensures { result ≡ all_fit self.entry.ledger.size.hours self.entry.ledger.words.now refs.now (marked moved.now.late) }
    {
        (0..self.used).all(|p| self.fits_late(moved, p))
    }
}
