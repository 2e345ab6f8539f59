// The third pass: 22, path by path. Use of the path is added up once and followed from row to row.
ghost use Rattle.std.specs.Prelude.{◌≡◌, true, not, ◌||◌, ◌+◌, ◌<◌, leb, length};
ghost use Rattle.words.specs.Lists.{word_at, all_below};
ghost use Rattle.rules.specs.Numbers.{most_path};
ghost use Rattle.rules.specs.Layout.{row_of};
ghost use Rattle.rules.specs.Paths.{posted_in};
ghost use Rattle.rules.proofs.Unwound.{gone_at, use_unwound};
ghost use Rattle.words.specs.Sums.{Summed};
ghost use Rattle.paths.specs.Exceeding.{Postings};
ghost use Rattle.unwinding.specs.Order.{asks as is_asking, all_movable, carries_all, paths_carry};

use crate::marks::RowMarks;
use crate::rows::Rows;
use layout::class::is_original;
use layout::numbers::{MOST_HOURS, MOST_PATH, PATH, REQTYPE};
use paths::adding::add_use;
use paths::exceeding::Posted;
use paths::path::Path;
use rules::Reference;

// References that the first pass let through, to be judged by what is posted.
#[derive(Clone, Copy)]
pub struct Carrying<'a> {
    pub rows: Rows<'a>,
    pub postings: &'a [u32],
    pub refs: &'a [u32],
    ghost postings_value: { Postings rows.ledger.size.hours postings.now },
    ghost movable: { all_movable rows.ledger.size.hours rows.ledger.words.now refs.now ≡ true },
}

impl<'a> Rows<'a> {
    // 22 is asked of path x as row n goes.
    #[tactic(auto, unfolding(crate::specs::Order::asks), using(crate::proofs::Counted::derived_above))]
    fn asks(self, x: u32, n: usize) -> bool
        requires { n < self.used }
        ensures { result ≡ is_asking self.entry.ledger.size.hours self.entry.ledger.words.now x n }
    {
        self.is_confirmed(n)
            && (self.word(n, PATH) == x
                || !is_original(self.word(n, REQTYPE)) && self.word(self.related(n), PATH) == x)
    }
}

impl<'a> Carrying<'a> {
    // No row of the references asks it.
    fn unasked(self, x: u32) -> bool
        ensures { let hours = self.entry.rows.ledger.size.hours in
            let words = self.entry.rows.ledger.words.now in
            let refs = self.entry.refs.now in
            result ≡ all_below (length refs) (λ k. not (is_asking hours words x (row_of (word_at refs k)))) }
    {
        self.refs
            .iter()
            .all(|&r| !self.rows.asks(x, rules::row_of(Reference(r)).0))
    }

    // The sums, use of the path, are within what is posted, if that is asked as row n goes.
    fn is_carried(self, sums: &[u32], path: Path, n: usize) -> bool
        requires n_bound { n < self.rows.used }
        requires sums_len { length sums.now ≡ self.rows.ledger.size.hours }
        ensures { let hours = self.entry.rows.ledger.size.hours in
            let words = self.entry.rows.ledger.words.now in
            let postings = self.entry.postings.now in
            result ≡ (not (is_asking hours words path.number n)
            || all_below hours (λ h. leb (word_at sums.now h) (posted_in hours postings path.number h))) }
    {
        let posted = Posted {
            ledger: self.rows.ledger,
            postings: self.postings,
        };
        !self.rows.asks(path.number, n) || words::all_covered(sums, posted.of_path(path))
    }

    // Reference by reference: the sums were the use of the path.
    fn follow(self, sums: &mut [u32], path: Path) -> bool
        requires { let hours = self.rows.ledger.size.hours in
            let words = self.rows.ledger.words.now in
            Summed hours (λ h. use_unwound hours words (gone_at self.refs.now 0) path.number h) sums.old }
        ensures { let c = self.entry in let l = c.rows.ledger in
            result ≡ carries_all l.size.hours l.words.now c.postings.now c.refs.now path.number }
    {
        let mut marks = RowMarks::none();
        for &r in self.refs {
            let n = rules::row_of(Reference(r)).0;
            self.rows.unwind_row(sums, &mut marks, path.number, n);
            if !self.is_carried(sums, path, n) {
                return false;
            }
        }
        true
    }

    fn path_carries(self, path: Path) -> bool
        ensures { let c = self.entry in let l = c.rows.ledger in
            result ≡ carries_all l.size.hours l.words.now c.postings.now c.refs.now path.number }
    {
        if self.unasked(path.number) {
            return true;
        }
        // No heap in the library: memory for the most hours.
        let mut buffer = [0u32; MOST_HOURS as usize];
        let sums = &mut buffer[..self.rows.ledger.size.hours];
        add_use(sums, self.rows.ledger, path.number);
        self.follow(sums, path)
    }

    pub fn paths_carry(self) -> bool
        ensures { let c = self.entry in
            result ≡ paths_carry c.rows.ledger.size.hours c.rows.ledger.words.now c.postings.now c.refs.now }
    {
        (0..MOST_PATH).all(
            |x: u32| -> bool
                requires { x < most_path }
                ensures { let c = self.entry in let l = c.rows.ledger in
                    result ≡ carries_all l.size.hours l.words.now c.postings.now c.refs.now (x + 1) }
            { self.path_carries(Path { number: x + 1 }) },
        )
    }
}
