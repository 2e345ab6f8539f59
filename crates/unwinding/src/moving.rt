// The first pass: 4, 11 and 15 of each reference in turn. Rows that go are marked, and so are those that are given
// something back late.
ghost use Rattle.std.specs.Prelude.{◌≡◌, true, false, ◌<◌, length, MatchOption, cond};
ghost use Rattle.rules.specs.Pick.{pick};
ghost use Rattle.rules.specs.Layout.{related_row};
ghost use Rattle.rules.proofs.Unwound.{adding, none, whole_again};
ghost use Rattle.unwinding.specs.Order.{movable as is_movable, all_movable, gives_late};
ghost use Rattle.unwinding.specs.Marks.{marked, Marks, Late};

use crate::marks::{RowMarks, gives, stays};
use crate::rows::Rows;
use checks::moves::seller_may_row;
use layout::entry::Entry;
use layout::numbers::{ANNULLED, MOST_HOURS};
use layout::profile::Profile;
use opening::sums::{add_profile, is_profile};
use rules::Reference;

// Where every reference can go: the rows that go, and those that are given something back late.
#[derive(Drop)]
pub struct Moved {
    pub gone: RowMarks,
    pub late: RowMarks,
}

impl Moved {
    // Of no reference.
    pub(crate) fn none() -> Moved
        ensures gone { marked result.gone ≡ none }
        ensures late { marked result.late ≡ none }
    {
        Moved {
            gone: RowMarks::none(),
            late: RowMarks::none(),
        }
    }
}

impl<'a> Rows<'a> {
    // 15: row n holds its granted again.
    fn is_whole(self, marks: &RowMarks, n: usize) -> bool
        requires { n < self.used }
        ensures { result ≡ whole_again self.entry.ledger.size.hours self.entry.ledger.words.now (marked marks.now) n }
    {
        // No heap in the library: memory for the most hours.
        let mut buffer = [0u32; MOST_HOURS as usize];
        let sums = &mut buffer[..self.ledger.size.hours];
        self.sum_back(sums, marks, n);
        let entry = Entry {
            ledger: self.ledger,
            n,
        };
        add_profile(sums, entry, Profile::Available);
        is_profile(sums, entry, Profile::Granted)
    }

    #[tactic(auto, unfolding(crate::specs::Order::movable, rules::specs::Layout::issued))]
    fn movable(self, marks: &RowMarks, r: u32) -> bool
        ensures { result ≡ is_movable self.entry.ledger.size.hours self.entry.ledger.words.now (marked marks.now) r }
    {
        match Reference(r).row(self.used) {
            None => false,
            Some(row) => {
                let n = row.0;
                !marks.has(n)
                    && seller_may_row(self.row(n), ANNULLED)
                    && (!self.is_confirmed(n) || self.is_whole(marks, n))
            }
        }
    }

    // Row n gives back to a row that is not CONFIRMED any more: that one is marked.
    #[tactic(auto, unfolding(crate::specs::Order::gives_late), using(crate::proofs::Counted::gives_above))]
    fn mark_late(self, late: &mut RowMarks, marks: &RowMarks, n: usize)
        requires { n < self.used }
        ensures { let hours = self.entry.ledger.size.hours in
            let words = self.entry.ledger.words.now in
            marked late.new ≡ pick (gives_late hours words (marked marks.now) n)
            (adding (marked late.old) (related_row hours words n))
            (marked late.old) }
    {
        if !gives(self.row(n)) {
            return;
        }
        let above = self.related(n);
        if !stays(self.row(above), marks) {
            late.add(above);
        }
    }

    // Whether every reference can go. What is lent had no mark, and has those of `Moved` then: given back by value they
    // would be copied by a `memcpy`, which whoever links the library would have to bring.
    pub(crate) fn note_all(self, moved: &mut Moved, refs: &[u32]) -> bool
        requires gone { marked moved.old.gone ≡ none }
        requires late { marked moved.old.late ≡ none }
        ensures { let hours = self.entry.ledger.size.hours in
            let words = self.entry.ledger.words.now in
            cond result
            ((all_movable hours words refs.now ≡ true)
            × Marks refs.now moved.new.gone (length refs.now)
            × Late hours words refs.now moved.new.late (length refs.now))
            (all_movable hours words refs.now ≡ false) }
    {
        for &r in refs {
            if !self.movable(&moved.gone, r) {
                return false;
            }
            let n = rules::row_of(Reference(r)).0;
            self.mark_late(&mut moved.late, &moved.gone, n);
            moved.gone.add(n);
        }
        true
    }

    pub fn all_movable(self, refs: &[u32]) -> Option<Moved>
        ensures { let hours = self.entry.ledger.size.hours in
            let words = self.entry.ledger.words.now in
            MatchOption result (all_movable hours words refs.now ≡ false) (λ m.
            (all_movable hours words refs.now ≡ true)
            × Marks refs.now m.gone (length refs.now)
            × Late hours words refs.now m.late (length refs.now)) }
    {
        let mut moved = Moved::none();
        if self.note_all(&mut moved, refs) {
            return Some(moved);
        }
        None
    }
}
