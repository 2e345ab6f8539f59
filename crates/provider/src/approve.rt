// 4 Approve.
ghost use Rattle.std.specs.Prelude.{◌≡◌};
ghost use Rattle.rules.specs.Numbers.{approved};
ghost use Rattle.rules.specs.Layout.{on_row, raise};
ghost use Rattle.rules.specs.Approve.{not_approvable, approve_number, approve_after};
ghost use Rattle.rules.specs.Refusals.{number_of};
ghost use Rattle.layout.specs.SoundAt.{SoundAt};
ghost use Rattle.layout.specs.Placed.{Placed};
ghost use Rattle.layout.specs.Rows.{own};

use checks::checks::{is_open, named, not_provider, waits_at};
use confirming::confirming::{check_confirm_own, confirm_own};
use layout::class::is_transfer;
use layout::ledger::Ledger;
use layout::numbers::{ACCEPTED, APPROVED, FLAGS, REQTYPE};
use layout::reservation::Reservation;
use layout::row::Row;
use layout::rows::{flag_raised, set_word};
use layout::size::Size;
use rules::{Action, Refusal};

// It is not of type 6 or 7, not open, or approved already.
#[tactic(auto, unfolding(rules::specs::Approve::not_approvable))]
fn not_approvable(r: Reservation) -> bool
    ensures { result ≡ not_approvable (own r.entry.row) }
{
    !is_transfer(r.row.word(REQTYPE)) || (!is_open(r.row) || r.row.has(APPROVED))
}

#[tactic(auto, using(crate::proofs::Laws::chosen), unfolding(rules::specs::Approve::approve_number, rules::specs::Checks::no_reference, rules::specs::Checks::waiting_number))]
pub fn check_approve(ledger: Ledger, a: Action) -> Result<(), Refusal>
    ensures { number_of result ≡ approve_number ledger.entry.size.hours ledger.entry.words.now a }
{
    let r = ledger.find(a.reference).ok_or(Refusal::NoReference)?;
    if not_provider(ledger.words, a) {
        return Err(Refusal::WrongParty);
    }
    if not_approvable(r) {
        return Err(Refusal::WrongMove);
    }
    if waits_at(r.row, ACCEPTED) {
        return check_confirm_own(r, true);
    }
    Ok(())
}

// Row n is marked approved.
#[tactic(auto, using(layout::proofs::Placed::sized, layout::proofs::Placed::in_rows), unfolding(rules::specs::Layout::on_row))]
fn mark_approved(l: &mut [u32], size: Size, n: usize)
    requires { Placed l.old size.rows size.hours n }
    ensures { l.new ≡ on_row size.hours n (raise approved) l.old }
{
    let row = Row {
        words: &l[..],
        size,
        n,
    };
    let raised = flag_raised(row.word(FLAGS), APPROVED);
    set_word(l, size, n, FLAGS, raised);
}

// A preconfirmed row at 10 then confirms. Types 6 and 7 give nothing back, so no word is carried over 100,000: law
// over_approve of proofs/Laws.
#[tactic(auto, using(crate::proofs::Laws::approving), unfolding(rules::specs::Approve::approve_after))]
pub fn approve(l: &mut [u32], size: Size, a: Action)
    requires sound_at { SoundAt l.old size.rows size.hours }
    requires a_value { approve_number size.hours l.old a ≡ 0 }
    ensures { l.new ≡ approve_after size.hours l.old a }
{
    let n = named(a).0;
    let row = Row {
        words: &l[..],
        size,
        n,
    };
    let waits = waits_at(row, ACCEPTED);
    mark_approved(l, size, n);
    if waits {
        confirm_own(l, size, n);
    }
}
