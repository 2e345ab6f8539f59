// Opening: whether a ledger's rows balance, worked out from its words alone.
#![tactic(auto)]

pub mod chains;
pub mod links;
pub mod sums;
pub mod testing;

ghost use Rattle.std.specs.Prelude.{◌≡◌, ◌&&◌, ◌+◌, length};
ghost use Rattle.words.specs.Lists.{all_below};
ghost use Rattle.rules.specs.Layout.{used as used_rows};
ghost use Rattle.rules.specs.Open.{balanced_row, balanced_tree, open_number};
ghost use Rattle.rules.specs.Refusals.{number_of};
ghost use Rattle.opening.specs.Shares.{balanced_by};

use chains::Chains;
use layout::ledger::Ledger;
use layout::numbers::{MOST_HOURS, MOST_ROWS};
use rules::Refusal;
use testing::{Equations, Test, Trees};

// Whether what is tested of the used rows holds. What is lent is written over.
fn rows_hold<T: Test>(
    links: &mut [u32],
    lasts: &mut [u32],
    befores: &mut [u32],
    sums: &mut [u32],
    ledger: Ledger,
) -> bool
    requires links_len { length links.old ≡ used_rows ledger.words.now }
    requires lasts_len { length lasts.old ≡ used_rows ledger.words.now + 1 }
    requires befores_len { length befores.old ≡ used_rows ledger.words.now }
    requires sums_len { length sums.old ≡ ledger.size.hours }
    ensures { let l = ledger.entry in
        let holds = balanced_by T.is_tested T.link T.own T.share l.size.hours l.words.now in
        result ≡ all_below (used_rows l.words.now) holds }
{
    Chains::<T>::over(links, lasts, befores, ledger).balanced(sums)
}

// The equations, and then the trees.
fn balanced(ledger: Ledger) -> bool
    ensures { let l = ledger.entry in
        let used = used_rows l.words.now in
        let rows = all_below used (λ n. balanced_row l.size.hours l.words.now n) in
        let trees = all_below used (λ n. balanced_tree l.size.hours l.words.now n) in
        result ≡ (rows && trees) }
{
    let used = ledger.used();
    // No heap in the library: memory for the most rows and hours, made once for both.
    let mut links = [0u32; MOST_ROWS as usize];
    let mut lasts = [0u32; MOST_ROWS as usize + 1];
    let mut befores = [0u32; MOST_ROWS as usize];
    let mut sums = [0u32; MOST_HOURS as usize];
    let links = &mut links[..used];
    let lasts = &mut lasts[..used + 1];
    let befores = &mut befores[..used];
    let sums = &mut sums[..ledger.size.hours];
    rows_hold::<Equations>(links, lasts, befores, sums, ledger)
        && rows_hold::<Trees>(links, lasts, befores, sums, ledger)
}

// Any words, in any number.
pub fn check_open(l: &[u32]) -> Result<(), Refusal>
    ensures { number_of result ≡ open_number l.now }
{
    let Some(ledger) = Ledger::of(l) else {
        return Err(Refusal::Unsound);
    };
    if !balanced(ledger) {
        return Err(Refusal::Unbalanced);
    }
    Ok(())
}
