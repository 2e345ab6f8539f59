// Which row each row counts for, as a reference: 0 for none, as in a row's own word for the row that it is related to,
// from which links are copied. So a link is a number, and no Option: links fill lent words.
ghost use Rattle.std.specs.Prelude.{◌≡◌, length};
ghost use Rattle.words.specs.Lists.{build};
ghost use Rattle.rules.specs.Layout.{used as used_rows};
ghost use Rattle.rules.specs.Open.{stands as is_standing};
ghost use Rattle.opening.specs.Chains.{draw_link, root_link};

use layout::ledger::Ledger;
use layout::numbers::{CONFIRMED, DISPLACED, RELATED, STATUS};
use layout::row::Row;

// It is CONFIRMED or DISPLACED.
#[tactic(auto, unfolding(rules::specs::Open::stands, rules::specs::Balance::live))]
pub fn stands(row: Row) -> bool
    ensures { let r = row.entry in result ≡ is_standing r.size.hours r.words.now r.n }
{
    let status = row.word(STATUS);
    (status == CONFIRMED) | (status == DISPLACED)
}

// The row that it draws on.
#[tactic(auto, unfolding(crate::specs::Chains::draw_link))]
fn draw_link(row: Row) -> u32
    ensures { let r = row.entry in result ≡ draw_link r.size.hours r.words.now r.n }
{
    if stands(row) {
        return row.word(RELATED);
    }
    0
}

// The links of all used rows.

pub fn link_draws(links: &mut [u32], ledger: Ledger)
    requires { length links.old ≡ used_rows ledger.words.now }
    ensures { let l = ledger.entry in
        links.new ≡ build (used_rows l.words.now) (λ n. draw_link l.size.hours l.words.now n) }
{
    for (n, link) in links.iter_mut().enumerate() {
        *link = draw_link(ledger.reservation(n).row);
    }
}

pub fn link_roots(links: &mut [u32], ledger: Ledger)
    requires { length links.old ≡ used_rows ledger.words.now }
    ensures { let l = ledger.entry in
        links.new ≡ build (used_rows l.words.now) (λ n. root_link l.size.hours l.words.now n) }
{
    // By index: a turn reads an earlier link.
    for n in 0..links.len() {
        let related = ledger.reservation(n).row.word(RELATED) as usize;
        links[n] = if related == 0 {
            n as u32 + 1
        } else {
            links[related - 1]
        };
    }
}
