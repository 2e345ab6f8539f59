// The checks of a submission.
ghost use Rattle.std.specs.Prelude.{◌≡◌, ◌&&◌, ◌||◌, not, [], ◌∷◌, ◌-◌};
ghost use Rattle.rules.specs.Pick.{pick, ◌among◌};
ghost use Rattle.rules.specs.Layout.{reqtype as type_of};
ghost use Rattle.rules.specs.Sound.{resold, redirect, firm as is_firm, relates as may_relate, inside};
ghost use Rattle.rules.specs.Moves.{is_confirmed};
ghost use Rattle.rules.specs.Checks.{bad_profile};
ghost use Rattle.rules.specs.Submit.{bad_type, bad_seller, bad_flags, unfit_path, bad_path, good_related, bad_related, related_customer, bad_parties, no_row_left, submit_number};
ghost use Rattle.rules.specs.Refusals.{number_of};
ghost use Rattle.layout.specs.Rows.{own};

use checks::checks::{bad_price, bad_span, span_asked, unknown_path};
use checks::request::Request;
use layout::class::{firm, is_original, is_resold, relates};
use layout::create::{is_entity, is_from};
use layout::ledger::Ledger;
use layout::numbers::{
    COORDINATED, CUSTOMER, FIRM_REDIRECT, FULL_TRANSFER, MOST_TYPE, NONFIRM_REDIRECT,
    ORIGINAL_FIRM, PART_TRANSFER, PATH, PRECONFIRMED, PROVIDER, RELINQUISH, REQTYPE, RESALE,
};
use layout::row::Row;
use layout::rows::has_flag;
use layout::sound::is_inside;
use rules::{Action, Reference, Refusal};

// The flags that a submission may carry, together.
const SUBMITTED: u32 = PRECONFIRMED + COORDINATED;

// 2: type.
#[tactic(auto, unfolding(rules::specs::Submit::bad_type))]
fn bad_type(a: Action) -> bool
    ensures { result ≡ bad_type a }
{
    !is_from(a.reqtype, ORIGINAL_FIRM, MOST_TYPE)
}

// 3: seller no entity.
#[tactic(auto, unfolding(rules::specs::Submit::bad_seller))]
fn bad_seller(a: Action) -> bool
    ensures { result ≡ bad_seller a }
{
    !is_entity(a.seller)
}

// 7: profile outside its slice, length not stop − start, a word over 100,000, or all 0.
fn bad_requested(request: Request) -> bool
    ensures { let a = request.entry.action in result ≡ bad_profile request.entry.words.now a (a.stop - a.start) }
{
    request.bad_profile(span_asked(request.action))
}

// 10: flags over 3, or type 5 not preconfirmed.
#[tactic(auto, unfolding(rules::specs::Submit::bad_flags))]
fn bad_flags(a: Action) -> bool
    ensures { result ≡ bad_flags a }
{
    (SUBMITTED < a.flags) | ((a.reqtype == NONFIRM_REDIRECT) & !has_flag(a.flags, PRECONFIRMED))
}

// REDIRECT, firm and non-firm.
#[tactic(auto, unfolding(rules::specs::Sound::redirect))]
fn is_redirect(t: u32) -> bool
    ensures { result ≡ redirect t }
{
    matches!(t, FIRM_REDIRECT | NONFIRM_REDIRECT)
}

// Types 3, 6, 7, 8, which stay on the related row's path.
fn is_bound(t: u32) -> bool
    ensures { result ≡ (t among (3 ∷ 6 ∷ 7 ∷ 8 ∷ [])) }
{
    matches!(t, RESALE | PART_TRANSFER | FULL_TRANSFER | RELINQUISH)
}

// Such a type names an existing related row of another path.
#[tactic(auto, using(rules::proofs::Picks::chain), unfolding(rules::specs::Submit::unfit_path))]
fn unfit_path(ledger: Ledger, a: Action) -> bool
    ensures { result ≡ unfit_path ledger.entry.size.hours ledger.entry.words.now a }
{
    if !is_bound(a.reqtype) {
        return false;
    }
    match ledger.find(a.related) {
        None => false,
        Some(related) => a.path != related.row.word(PATH),
    }
}

// 21: an unknown path, or an unfit one.
#[tactic(auto, unfolding(rules::specs::Submit::bad_path))]
fn bad_path(ledger: Ledger, a: Action) -> bool
    ensures { result ≡ bad_path ledger.entry.size.hours ledger.entry.words.now a }
{
    unknown_path(a) || unfit_path(ledger, a)
}

// A redirect is of a firm row; the other types ask nothing of the row here.
fn firm_enough(row: Row, t: u32) -> bool
    ensures { let r = row.entry in result ≡ (not (redirect t) || is_firm r.size.hours r.words.now r.n) }
{
    !is_redirect(t) || firm(row)
}

// CONFIRMED, of a fitting type, firm enough, and with the action's span inside its span: a row that the action may be
// related to.
#[tactic(auto, using(rules::proofs::Picks::chain))]
fn fits_row(row: Row, a: Action) -> bool
    ensures { let r = row.entry in
        result ≡ (is_confirmed (own r)
        && (may_relate a.reqtype (type_of (own r))
        && ((not (redirect a.reqtype) || is_firm r.size.hours r.words.now r.n)
        && inside a.start a.stop (own r)))) }
{
    row.is_confirmed()
        && relates(a.reqtype, row.word(REQTYPE))
        && firm_enough(row, a.reqtype)
        && is_inside(a.start, a.stop, row.own())
}

// Types 3 to 8: the row that the action names as related is issued and fits.
#[tactic(auto, using(rules::proofs::Picks::chain), unfolding(rules::specs::Submit::good_related))]
fn good_related(ledger: Ledger, a: Action) -> bool
    ensures { result ≡ good_related ledger.entry.size.hours ledger.entry.words.now a }
{
    match ledger.find(a.related) {
        None => false,
        Some(related) => fits_row(related.row, a),
    }
}

// 9: related not 0 for types 1, 2; otherwise no row that the action may be related to.
#[tactic(auto, unfolding(rules::specs::Submit::bad_related))]
fn bad_related(ledger: Ledger, a: Action) -> bool
    ensures { result ≡ bad_related ledger.entry.size.hours ledger.entry.words.now a }
{
    if is_original(a.reqtype) {
        return a.related != 0;
    }
    !good_related(ledger, a)
}

// The customer of the row that the action is related to. Where there is no such row it is 0, and no Option: the rules
// read words past the rows as 0.
#[tactic(auto, using(crate::proofs::Laws::none_past), unfolding(rules::specs::Submit::related_customer))]
fn related_customer(ledger: Ledger, a: Action) -> u32
    ensures { result ≡ related_customer ledger.entry.size.hours ledger.entry.words.now a }
{
    let n = rules::row_of(Reference(a.related)).0;
    if ledger.size.rows <= n {
        return 0;
    }
    let related = Row {
        words: ledger.words,
        size: ledger.size,
        n,
    };
    related.word(CUSTOMER)
}

// Who sells type t: the related customer, or the provider.
fn seller_of(t: u32, customer: u32, provider: u32) -> u32
    ensures { result ≡ pick (resold t) customer provider }
{
    if is_resold(t) {
        return customer;
    }
    provider
}

// Types 4, 5, 8, which the related row's customer asks for.
fn is_holders(t: u32) -> bool
    ensures { result ≡ (t among (4 ∷ 5 ∷ 8 ∷ [])) }
{
    matches!(t, FIRM_REDIRECT | NONFIRM_REDIRECT | RELINQUISH)
}

// 3: seller not the provider, or not the related customer; for 4, 5, 8 actor not the related customer.
#[tactic(auto, using(layout::proofs::SoundAt::head_fits), unfolding(rules::specs::Submit::bad_parties))]
fn bad_parties(ledger: Ledger, a: Action) -> bool
    ensures { result ≡ bad_parties ledger.entry.size.hours ledger.entry.words.now a }
{
    let customer = related_customer(ledger, a);
    let seller = seller_of(a.reqtype, customer, ledger.words[PROVIDER]);
    (a.seller != seller) | (is_holders(a.reqtype) & (a.actor != customer))
}

// 8: R rows used.
#[tactic(auto, unfolding(rules::specs::Submit::no_row_left))]
fn no_row_left(ledger: Ledger) -> bool
    ensures { result ≡ no_row_left ledger.entry.words.now }
{
    ledger.used() == ledger.size.rows
}

#[tactic(auto, using(rules::proofs::Picks::choice), unfolding(rules::specs::Submit::submit_number))]
pub fn check_submit(ledger: Ledger, request: Request) -> Result<(), Refusal>
    ensures { let l = ledger.entry in
        number_of result ≡ submit_number l.size.hours l.words.now request.entry.words.now request.entry.action }
{
    let a = request.action;
    if bad_type(a) {
        return Err(Refusal::OutOfRange);
    }
    if bad_seller(a) {
        return Err(Refusal::WrongParty);
    }
    if bad_span(ledger.size.hours, a) {
        return Err(Refusal::WrongSpan);
    }
    if bad_requested(request) {
        return Err(Refusal::WrongProfile);
    }
    if bad_flags(a) {
        return Err(Refusal::WrongFlags);
    }
    if bad_path(ledger, a) {
        return Err(Refusal::WrongPath);
    }
    if bad_price(a) {
        return Err(Refusal::WrongPrice);
    }
    if bad_related(ledger, a) {
        return Err(Refusal::WrongRelated);
    }
    if bad_parties(ledger, a) {
        return Err(Refusal::WrongParty);
    }
    if no_row_left(ledger) {
        return Err(Refusal::NoRowLeft);
    }
    Ok(())
}
