// 6 Lapse.
ghost use Rattle.std.specs.Prelude.{◌≡◌, false, [], ◌∷◌};
ghost use Rattle.rules.specs.Pick.{◌among◌};
ghost use Rattle.rules.specs.Megawatts.{carries_over};
ghost use Rattle.rules.specs.Lapse.{not_lapsing, too_early, lapse_number, lapse_after};
ghost use Rattle.rules.specs.Refusals.{number_of};
ghost use Rattle.layout.specs.SoundAt.{SoundAt};
ghost use Rattle.layout.specs.Rows.{own};

use checks::checks::{named, not_provider, waits_at};
use confirming::confirming::{check_confirm_marked, confirm_own, over_confirming_own};
use layout::ledger::Ledger;
use layout::numbers::{
    ACCEPTED, CLOCK, COUNTEROFFER, CR_ACCEPTED, CR_COUNTEROFFER, LIMIT, RETRACTED, STATUS,
};
use layout::reservation::Reservation;
use layout::row::Row;
use layout::rows::set_word;
use layout::size::Size;
use rules::{Action, Refusal};

// 6, 7, 10, 11.
fn lapses(s: u32) -> bool
    ensures { result ≡ (s among (6 ∷ 7 ∷ 10 ∷ 11 ∷ [])) }
{
    matches!(s, COUNTEROFFER | CR_COUNTEROFFER | ACCEPTED | CR_ACCEPTED)
}

// It is not at 6, 7, 10, 11, or preconfirmed at 10.
#[tactic(auto, unfolding(rules::specs::Lapse::not_lapsing))]
fn not_lapsing(r: Reservation) -> bool
    ensures { result ≡ not_lapsing (own r.entry.row) }
{
    !lapses(r.row.word(STATUS)) || waits_at(r.row, ACCEPTED)
}

// Now is before its limit.
#[tactic(auto, using(layout::proofs::Placed::head_placed), unfolding(rules::specs::Lapse::too_early))]
fn too_early(r: Reservation) -> bool
    ensures { result ≡ too_early r.entry.row.words.now (own r.entry.row) }
{
    r.row.words[CLOCK] < r.row.word(LIMIT)
}

#[tactic(auto, using(crate::proofs::Laws::chosen), unfolding(rules::specs::Lapse::lapse_number, rules::specs::Checks::no_reference, rules::specs::Checks::waiting_number))]
pub fn check_lapse(ledger: Ledger, a: Action) -> Result<(), Refusal>
    ensures { number_of result ≡ lapse_number ledger.entry.size.hours ledger.entry.words.now a }
{
    let r = ledger.find(a.reference).ok_or(Refusal::NoReference)?;
    if not_provider(ledger.words, a) {
        return Err(Refusal::WrongParty);
    }
    if not_lapsing(r) {
        return Err(Refusal::WrongMove);
    }
    if too_early(r) {
        return Err(Refusal::TooEarly);
    }
    if waits_at(r.row, CR_ACCEPTED) {
        return check_confirm_marked(r);
    }
    Ok(())
}

// Whether a lapse would carry a word over 100,000.
#[tactic(auto, using(crate::proofs::Laws::lapsing))]
pub fn lapse_over(ledger: Ledger, a: Action) -> bool
    requires { lapse_number ledger.size.hours ledger.words.now a ≡ 0 }
    ensures { let hours = ledger.entry.size.hours in
        result ≡ carries_over hours (lapse_after hours ledger.entry.words.now a) }
{
    let r = ledger.reservation(named(a).0);
    waits_at(r.row, CR_ACCEPTED) && over_confirming_own(r)
}

// A preconfirmed 11 confirms; the others go to 17.
#[tactic(auto, using(crate::proofs::Laws::lapsing), unfolding(rules::specs::Lapse::lapse_after))]
pub fn lapse(l: &mut [u32], size: Size, a: Action)
    requires sound_at { SoundAt l.old size.rows size.hours }
    requires a_value { lapse_number size.hours l.old a ≡ 0 }
    requires a_value_2 { carries_over size.hours (lapse_after size.hours l.old a) ≡ false }
    ensures { l.new ≡ lapse_after size.hours l.old a }
{
    let n = named(a).0;
    let row = Row {
        words: &l[..],
        size,
        n,
    };
    if waits_at(row, CR_ACCEPTED) {
        confirm_own(l, size, n);
    } else {
        set_word(l, size, n, STATUS, RETRACTED);
    }
}
