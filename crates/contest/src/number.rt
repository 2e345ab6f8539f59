// The checks of a contest before its moves.
ghost use Rattle.std.specs.Prelude.{◌≡◌, not};
ghost use Rattle.rules.specs.Sound.{firm as is_firm};
ghost use Rattle.rules.specs.Contest.{present, bad_greatest, displacing as displacing_of, contest_checks, contest_number};
ghost use Rattle.rules.specs.Refusals.{number_of};

use crate::contested::Contested;
use checks::request::Request;
use layout::class::firm;
use layout::create::is_from;
use layout::entry::Entry;
use layout::ledger::Ledger;
use layout::numbers::DISPLACED;
use layout::row::Row;
use layout::sound::{size_of, sound_both};
use ledger::numbering::check_common;
use rules::{Action, Contest, Kind, Reference, Refusal};
use seller::number::check_seller_status;

// The displacement that a lost contest ends as.
fn displacing(k: Contest) -> Action
    ensures { result ≡ displacing_of k }
{
    Action {
        kind: u32::from(Kind::SellerStatus),
        actor: k.actor,
        reference: k.reference,
        status: DISPLACED,
        ..Action::default()
    }
}

// The row's own hours: the holder's present term.
pub fn present_term(c: Contested) -> u32
    ensures { let l = c.entry.row.ledger in result ≡ present l.size.hours l.words.now c.entry.contest }
{
    c.row.reservation().count() as u32
}

// A greatest term is 0, above the ledger's hours or, for the holder, below its present one.
fn bad_greatest(c: Contested) -> bool
    ensures { let l = c.entry.row.ledger in result ≡ bad_greatest l.size.hours l.words.now c.entry.contest }
{
    let most = c.row.ledger.size.hours as u32;
    let k = c.contest;
    let present = present_term(c);
    !is_from(k.challenger, 1, most) || (!is_from(k.holder, 1, most) || k.holder < present)
}

// No contest is for a row that is not firm.
fn not_firm(row: Row) -> bool
    ensures { let r = row.entry in result ≡ not (is_firm r.size.hours r.words.now r.n) }
{
    !firm(row)
}

// The checks of a sound ledger. A displacement reads no profile.
fn check_sound(ledger: Ledger, k: Contest) -> Result<(), Refusal>
    ensures { let l = ledger.entry in number_of result ≡ contest_checks l.size.hours l.words.now k }
{
    let request = Request {
        action: displacing(k),
        words: &ledger.words[..0],
    };
    check_seller_status(ledger, request)?;
    let row = Entry {
        ledger,
        n: rules::row_of(Reference(k.reference)).0,
    };
    if not_firm(row.row()) {
        return Err(Refusal::WrongMove);
    }
    if bad_greatest(Contested { row, contest: k }) {
        return Err(Refusal::TermOutOfRange);
    }
    Ok(())
}

// The first check that applies.
pub fn check_contest(l: &[u32], postings: &[u32], k: Contest) -> Result<(), Refusal>
    ensures { number_of result ≡ contest_number l.now postings.now k }
{
    check_common(sound_both(l, postings), displacing(k))?;
    let ledger = Ledger {
        words: l,
        size: size_of(l),
    };
    check_sound(ledger, k)
}
