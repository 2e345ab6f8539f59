// 5 Reduce.
ghost use Rattle.std.specs.Prelude.{◌≡◌, false};
ghost use Rattle.rules.specs.Layout.{span_hours};
ghost use Rattle.rules.specs.Megawatts.{carries_over};
ghost use Rattle.rules.specs.Checks.{bad_profile};
ghost use Rattle.rules.specs.Reduce.{not_reducible, reduces_too_much, reduce_number, reduce_after};
ghost use Rattle.rules.specs.Refusals.{number_of};
ghost use Rattle.layout.specs.SoundAt.{SoundAt};
ghost use Rattle.layout.specs.Rows.{own};

use checks::checks::{named, not_provider};
use checks::request::{Named, Request};
use layout::ledger::Ledger;
use layout::numbers::{RELINQUISH, REQTYPE};
use layout::profile::Profile;
use layout::reservation::Reservation;
use layout::size::Size;
use megawatts::moving::over_reducing;
use rules::Refusal;

// It is not CONFIRMED, or of type 8.
#[tactic(auto, unfolding(rules::specs::Reduce::not_reducible))]
fn not_reducible(r: Reservation) -> bool
    ensures { result ≡ not_reducible (own r.entry.row) }
{
    !r.row.is_confirmed() || r.row.word(REQTYPE) == RELINQUISH
}

// The profile asked for is none for its span.
fn bad_for_span(named: Named) -> bool
    ensures { let asked = named.entry.request in
        result ≡ bad_profile asked.words.now asked.action (span_hours (own named.entry.reservation.row)) }
{
    named.request.bad_profile(named.reservation.count())
}

// It has less available than the profile in an hour.
#[tactic(auto, using(crate::proofs::Laws::too_much), unfolding(rules::specs::Reduce::reduces_too_much))]
fn reduces_too_much(named: Named) -> bool
    requires { let asked = named.request in
        bad_profile asked.words.now asked.action (span_hours (own named.reservation.row)) ≡ false }
    ensures { let asked = named.entry.request in let row = named.entry.reservation.row in
        result ≡ reduces_too_much row.size.hours asked.words.now asked.action (own row) }
{
    let row = named.reservation.row;
    !row.covers(Profile::Available, row.start(), named.request.profile())
}

#[tactic(auto, using(crate::proofs::Laws::chosen), unfolding(rules::specs::Reduce::reduce_number, rules::specs::Checks::no_reference))]
pub fn check_reduce(ledger: Ledger, request: Request) -> Result<(), Refusal>
    ensures { let l = ledger.entry in
        number_of result ≡ reduce_number l.size.hours l.words.now request.entry.words.now request.entry.action }
{
    let named = request.named(ledger)?;
    if not_provider(ledger.words, request.action) {
        return Err(Refusal::WrongParty);
    }
    if not_reducible(named.reservation) {
        return Err(Refusal::WrongMove);
    }
    if bad_for_span(named) {
        return Err(Refusal::WrongProfile);
    }
    if reduces_too_much(named) {
        return Err(Refusal::Short);
    }
    Ok(())
}

// The reduction would carry a reduced word over 100,000.
#[tactic(auto, using(crate::proofs::Laws::reducing))]
pub fn reduce_over(ledger: Ledger, request: Request) -> bool
    requires { reduce_number ledger.size.hours ledger.words.now request.words.now request.action ≡ 0 }
    ensures { let hours = ledger.entry.size.hours in
        let asked = request.entry in
        result ≡ carries_over hours (reduce_after hours ledger.entry.words.now asked.words.now asked.action) }
{
    let r = ledger.reservation(named(request.action).0);
    over_reducing(r, request.profile())
}

#[tactic(auto, using(crate::proofs::Laws::reducing), unfolding(rules::specs::Reduce::reduce_after))]
pub fn reduce(l: &mut [u32], size: Size, request: Request)
    requires sound_at { SoundAt l.old size.rows size.hours }
    requires a_value { reduce_number size.hours l.old request.words.now request.action ≡ 0 }
    requires a_value_2 { let w = request.words.now in
        carries_over size.hours (reduce_after size.hours l.old w request.action) ≡ false }
    ensures { l.new ≡ reduce_after size.hours l.old request.entry.words.now request.entry.action }
{
    megawatts::moving::reduce(l, size, named(request.action).0, request.profile());
}
