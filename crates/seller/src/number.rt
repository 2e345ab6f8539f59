// The checks of a seller status, on the row that the action names.
ghost use Rattle.std.specs.Prelude.{◌≡◌, ◌&&◌, ◌||◌, not, eqb, length};
ghost use Rattle.rules.specs.Pick.{◌only_if◌};
ghost use Rattle.rules.specs.Numbers.{preconfirmed, approved, ANNULLED as annulled, RESALE as resale};
ghost use Rattle.rules.specs.Layout.{provider, reqtype, has, span_hours};
ghost use Rattle.rules.specs.Sound.{transfer};
ghost use Rattle.rules.specs.SellerStatus.{not_seller, no_seller_move, counters as is_counter, accepts as is_acceptance, offers as is_offer, granted_after, unfit_offer, goes_on, fit_number, offer_number, annuls_confirmed, partly_used, seller_number};
ghost use Rattle.rules.specs.Refusals.{number_of};
ghost use Rattle.layout.specs.Rows.{own};
ghost use Rattle.checks.specs.Suits.{Suits};

use checks::checks::{bad_price, bad_status};
use checks::moves::seller_may_row;
use checks::request::{Named, Request};
use confirming::confirming::check_confirm;
use layout::class::is_transfer;
use layout::ledger::Ledger;
use layout::numbers::{
    ACCEPTED, ANNULLED, APPROVED, BID, COUNTEROFFER, CR_ACCEPTED, CR_COUNTEROFFER, PRECONFIRMED,
    PROVIDER, REQTYPE, RESALE, SELLER,
};
use layout::profile::Profile;
use layout::reservation::Reservation;
use megawatts::moving::partly_used;
use rules::{Action, Refusal};

// 6, 7; 10, 11; any of them.

#[tactic(auto, unfolding(rules::specs::SellerStatus::counters))]
pub fn counters(a: Action) -> bool
    ensures { result ≡ is_counter a }
{
    a.status == COUNTEROFFER || a.status == CR_COUNTEROFFER
}

#[tactic(auto, unfolding(rules::specs::SellerStatus::accepts))]
pub fn accepts(a: Action) -> bool
    ensures { result ≡ is_acceptance a }
{
    a.status == ACCEPTED || a.status == CR_ACCEPTED
}

#[tactic(auto, unfolding(rules::specs::SellerStatus::offers))]
pub fn offers(a: Action) -> bool
    ensures { result ≡ is_offer a }
{
    counters(a) || accepts(a)
}

// A confirmed row is annulled. This and goes_on take a reservation and an action: what writes the row asks them too.
#[tactic(auto, unfolding(rules::specs::SellerStatus::annuls_confirmed))]
pub fn annuls_confirmed(r: Reservation, a: Action) -> bool
    ensures { result ≡ annuls_confirmed a (own r.entry.row) }
{
    a.status == ANNULLED && r.row.is_confirmed()
}

// Preconfirmed, and not a transfer that waits for approval.
fn needs_no_more(r: Reservation) -> bool
    ensures { let own = own r.entry.row in
        result ≡ (has preconfirmed own && (not (transfer (reqtype own)) || has approved own)) }
{
    r.row.has(PRECONFIRMED) && (!is_transfer(r.row.word(REQTYPE)) || r.row.has(APPROVED))
}

// A preconfirmed row moved to 10 goes on to 13; types 6 and 7 stay at 10 until approved.
#[tactic(auto, unfolding(rules::specs::SellerStatus::goes_on))]
pub fn goes_on(r: Reservation, a: Action) -> bool
    ensures { result ≡ goes_on a (own r.entry.row) }
{
    a.status == ACCEPTED && needs_no_more(r)
}

// The provider annuls a resale.
fn provider_annuls(named: Named) -> bool
    ensures { let a = named.entry.request.action in let row = named.entry.reservation.row in
        result ≡ (eqb a.actor (provider row.words.now) && (eqb a.status annulled && eqb (reqtype (own row)) resale)) }
{
    let a = named.request.action;
    let row = named.reservation.row;
    a.actor == row.words[PROVIDER] && (a.status == ANNULLED && row.word(REQTYPE) == RESALE)
}

// 3: actor not the row's seller (the provider may also annul type 3).
#[tactic(auto, unfolding(rules::specs::SellerStatus::not_seller))]
fn not_seller(named: Named) -> bool
    ensures { let row = named.entry.reservation.row in
        result ≡ not_seller row.words.now named.entry.request.action (own row) }
{
    named.request.action.actor != named.reservation.row.word(SELLER) && !provider_annuls(named)
}

// 11: move.
#[tactic(auto, unfolding(rules::specs::SellerStatus::no_seller_move))]
fn no_seller_move(named: Named) -> bool
    ensures { let row = named.entry.reservation.row in result ≡ no_seller_move named.entry.request.action (own row) }
{
    !seller_may_row(named.reservation.row, named.request.action.status)
}

// Granted after the move: the profile that comes, else the profile in force.
#[tactic(auto, unfolding(rules::specs::SellerStatus::granted_after))]
pub fn granted_after<'a>(request: Request<'a>, r: Reservation<'a>) -> &'a [u32]
    requires { Suits request.words.now request.action (own r.row) }
    ensures { let row = r.entry.row in
        result.now ≡ granted_after row.size.hours request.entry.words.now request.entry.action (own row) }
{
    request.profile_or(r.in_force())
}

// 12: granted over requested in an hour (6, 7), or offer or granted unequal to bid or requested (10, 11).
#[tactic(auto, unfolding(rules::specs::SellerStatus::unfit_offer))]
fn unfit_offer(named: Named, mw: &[u32]) -> bool
    requires { length mw.now ≡ span_hours (own named.reservation.row) }
    ensures { let row = named.entry.reservation.row in
        result ≡ unfit_offer row.size.hours named.entry.request.action mw.now (own row) }
{
    let requested = named.reservation.span(Profile::Requested);
    if counters(named.request.action) {
        return !words::all_covered(mw, requested);
    }
    named.request.action.price != named.reservation.row.word(BID)
        || !words::all_equal(mw, requested)
}

// 12; then, if it confirms, as confirming.
#[tactic(auto, unfolding(rules::specs::SellerStatus::fit_number))]
fn check_fit(named: Named, mw: &[u32]) -> Result<(), Refusal>
    requires { length mw.now ≡ span_hours (own named.reservation.row) }
    ensures { let row = named.entry.reservation.row in
        number_of result ≡ fit_number row.size.hours row.words.now named.entry.request.action mw.now }
{
    if unfit_offer(named, mw) {
        return Err(Refusal::WrongPrice);
    }
    let r = named.reservation;
    if !goes_on(r, named.request.action) {
        return Ok(());
    }
    check_confirm(r, mw, r.row.has(APPROVED))
}

#[tactic(auto, using(crate::proofs::Laws::granting), unfolding(rules::specs::SellerStatus::offer_number, rules::specs::Checks::bad_if_comes))]
fn check_offer(named: Named) -> Result<(), Refusal>
    ensures { let row = named.entry.reservation.row in
        let asked = named.entry.request in
        number_of result ≡ offer_number row.size.hours row.words.now asked.words.now asked.action }
{
    let r = named.reservation;
    let request = named.request;
    if request.bad_if_comes(r.count()) {
        return Err(Refusal::WrongProfile);
    }
    if bad_price(request.action) {
        return Err(Refusal::WrongPrice);
    }
    check_fit(named, granted_after(request, r))
}

// For 6, 7, 10, 11.
fn check_offered(named: Named) -> Result<(), Refusal>
    ensures { let row = named.entry.reservation.row in
        let asked = named.entry.request in
        number_of result
        ≡ (offer_number row.size.hours row.words.now asked.words.now asked.action only_if is_offer asked.action) }
{
    if offers(named.request.action) {
        check_offer(named)
    } else {
        Ok(())
    }
}

// 15: annulling a confirmed row whose available differs from granted.
#[tactic(auto, unfolding(rules::specs::SellerStatus::partly_used))]
fn annuls_partly_used(named: Named) -> bool
    ensures { let row = named.entry.reservation.row in
        result ≡ partly_used row.size.hours named.entry.request.action (own row) }
{
    let r = named.reservation;
    annuls_confirmed(r, named.request.action) && partly_used(r)
}

// The first check that refuses, if any.
#[tactic(auto, using(crate::proofs::Laws::checking), unfolding(rules::specs::SellerStatus::seller_number, rules::specs::Checks::no_reference))]
pub fn check_seller_status(ledger: Ledger, request: Request) -> Result<(), Refusal>
    ensures { let l = ledger.entry in
        number_of result ≡ seller_number l.size.hours l.words.now request.entry.words.now request.entry.action }
{
    let named = request.named(ledger)?;
    if bad_status(request.action) {
        return Err(Refusal::OutOfRange);
    }
    if not_seller(named) {
        return Err(Refusal::WrongParty);
    }
    if no_seller_move(named) {
        return Err(Refusal::WrongMove);
    }
    check_offered(named)?;
    if annuls_partly_used(named) {
        return Err(Refusal::PartlyUsed);
    }
    Ok(())
}
