// The used rows of a ledger, chained by the row that they count for, and the sums over a chain.
ghost use Rattle.std.specs.Prelude.{◌≡◌, ◌+◌, ◌<◌, ◌≤◌, length};
ghost use Rattle.words.specs.Lists.{word_at, all_below, noughts};
ghost use Rattle.words.specs.Sums.{Adds, Summed};
ghost use Rattle.rules.specs.Layout.{used as used_rows};
ghost use Rattle.opening.specs.Chains.{Chained, Unchained, Falling, chain_sum};
ghost use Rattle.opening.specs.Shares.{sum_of, balanced_by, most_share, Sums};

use crate::sums::is_profile;
use crate::testing::Test;
use layout::entry::Entry;
use layout::ledger::Ledger;
use layout::numbers::MOST_ROWS;
use layout::profile::Profile;
use std::marker::PhantomData;

// Rows are chained by their links. The lasts were 0. Both are stored by their places: of a walk by `iter_mut` over the
// one an invariant would have to say what the iterator has left.
fn chain(lasts: &mut [u32], befores: &mut [u32], links: &[u32])
    requires unchained { Unchained links.now lasts.old befores.old }
    requires lasts_value { lasts.old ≡ noughts (length lasts.old) }
    ensures { Chained (λ n. word_at links.now n) (length links.now) lasts.new befores.new }
{
    for (n, link) in links.iter().enumerate() {
        let link = *link as usize;
        befores[n] = lasts[link];
        lasts[link] = n as u32 + 1;
    }
}

// All used rows are linked and chained, whatever the words lent were.
pub fn chain_rows<T: Test>(
    links: &mut [u32],
    lasts: &mut [u32],
    befores: &mut [u32],
    ledger: Ledger,
)
    requires links_len { length links.old ≡ used_rows ledger.words.now }
    requires lasts_len { length lasts.old ≡ used_rows ledger.words.now + 1 }
    requires befores_len { length befores.old ≡ used_rows ledger.words.now }
    ensures { let l = ledger.entry in
        Chained (T.link l.size.hours l.words.now) (used_rows l.words.now) lasts.new befores.new }
{
    T::link_rows(links, ledger);
    words::clear(lasts);
    chain(lasts, befores, links);
}

// The shares of the rows of a chain are added, from reference last on.
pub fn add_chain<T: Test>(sums: &mut [u32], befores: &[u32], ledger: Ledger, last: u32)
    requires falling { Falling (used_rows ledger.words.now) befores.now }
    requires last_bound { last ≤ used_rows ledger.words.now }
    requires sums { Sums ledger.size.hours most_share sums.old }
    ensures { let l = ledger.entry in
        let share = T.share l.size.hours l.words.now in
        Adds (λ h. chain_sum befores.now (share h) last) sums.old sums.new }
{
    let mut m = last as usize;
    // No walk by number: each turn reads where the next row stands.
    while m != 0 {
        T::add_share(sums, Entry { ledger, n: m - 1 });
        m = befores[m - 1] as usize;
    }
}

// For each row the last one that counts for it, and the one before each, as references: the library has no heap.
#[derive(Drop)]
pub struct Chains<'a, T: Test> {
    pub ledger: Ledger<'a>,
    lasts: &'a [u32],
    befores: &'a [u32],
    of: PhantomData<T>,
    ghost chained: { let words = ledger.words.now in
        Chained (T.link ledger.size.hours words) (used_rows words) lasts.now befores.now },
}

impl<'a, T: Test> Chains<'a, T> {
    pub fn new(lasts: &'a mut [u32], befores: &'a mut [u32], ledger: Ledger<'a>) -> Chains<'a, T>
        requires lasts_len { length lasts.old ≡ used_rows ledger.words.now + 1 }
        requires befores_len { length befores.old ≡ used_rows ledger.words.now }
        ensures words { result.ledger.words.now ≡ ledger.entry.words.now }
        ensures size { result.ledger.size ≡ ledger.entry.size }
    {
        // No heap in the library: memory for the most rows.
        let mut links = [0u32; MOST_ROWS as usize];
        Chains::over(&mut links[..ledger.used()], lasts, befores, ledger)
    }

    // The same, with the links in words that are lent.
    pub(crate) fn over(
        links: &mut [u32],
        lasts: &'a mut [u32],
        befores: &'a mut [u32],
        ledger: Ledger<'a>,
    ) -> Chains<'a, T>
        requires links_len { length links.old ≡ used_rows ledger.words.now }
        requires lasts_len { length lasts.old ≡ used_rows ledger.words.now + 1 }
        requires befores_len { length befores.old ≡ used_rows ledger.words.now }
        ensures words { result.ledger.words.now ≡ ledger.entry.words.now }
        ensures size { result.ledger.size ≡ ledger.entry.size }
    {
        chain_rows::<T>(links, lasts, befores, ledger);
        Chains {
            ledger,
            lasts,
            befores,
            of: PhantomData,
        }
    }

    // What is held against granted of a row, by hour.
    fn sum_rows(&self, sums: &mut [u32], n: usize)
        requires n_bound { n < used_rows self.now.ledger.words.now }
        requires sums_len { length sums.old ≡ self.now.ledger.size.hours }
        ensures { let l = self.now.ledger in
            Summed l.size.hours (λ h. sum_of T.link T.own T.share l.size.hours l.words.now h n) sums.new }
    {
        words::clear(sums);
        T::add_own(
            sums,
            Entry {
                ledger: self.ledger,
                n,
            },
        );
        add_chain::<T>(sums, self.befores, self.ledger, self.lasts[n + 1]);
    }

    // Whether what is tested of row n holds in every hour.
    fn row_balanced(&self, sums: &mut [u32], n: usize) -> bool
        requires n_bound { n < used_rows self.now.ledger.words.now }
        requires sums_len { length sums.old ≡ self.now.ledger.size.hours }
        ensures { let l = self.now.ledger in
            result ≡ balanced_by T.is_tested T.link T.own T.share l.size.hours l.words.now n }
    {
        let entry = Entry {
            ledger: self.ledger,
            n,
        };
        if !T::is_tested(entry.row()) {
            return true;
        }
        self.sum_rows(sums, n);
        is_profile(sums, entry, Profile::Granted)
    }

    // Of all used rows. What is lent is written over.
    pub fn balanced(&self, sums: &mut [u32]) -> bool
        requires { length sums.old ≡ self.now.ledger.size.hours }
        ensures { let l = self.now.ledger in
            let holds = balanced_by T.is_tested T.link T.own T.share l.size.hours l.words.now in
            result ≡ all_below (used_rows l.words.now) holds }
    {
        // A loop: the closure of `all` would write what is lent, and its clauses with their proof are longer than this.
        for n in 0..self.ledger.used() {
            if !self.row_balanced(sums, n) {
                return false;
            }
        }
        true
    }
}
