// 3 Customer status: its checks, whether it would carry a word over 100,000, and what it writes.
#![tactic(auto)]

ghost use Rattle.std.specs.Prelude.{◌≡◌, false, ◌&&◌, ◌≤◌};
ghost use Rattle.rules.specs.Numbers.{most_price};
ghost use Rattle.rules.specs.Layout.{row, on_row};
ghost use Rattle.rules.specs.Megawatts.{in_force, carries_over};
ghost use Rattle.rules.specs.Confirming.{confirm as confirmed, short};
ghost use Rattle.rules.specs.Checks.{named as row_named, bad_if_comes};
ghost use Rattle.rules.specs.CustomerStatus.{not_customer, no_customer_move, bids, confirms, requested_after, unfit_bid, bid_confirm_number, bid_number, customer_number, bidden, customer_after};
ghost use Rattle.rules.specs.Refusals.{number_of};
ghost use Rattle.rules.proofs.Over.{over_confirming};
ghost use Rattle.layout.specs.SoundAt.{SoundAt};
ghost use Rattle.layout.specs.Bounds.{Spanned};
ghost use Rattle.layout.specs.Placed.{Placed};
ghost use Rattle.layout.specs.Rows.{own};
ghost use Rattle.checks.specs.Suits.{Suits};
ghost use Rattle.paths.specs.Own.{exceeds_own};

use checks::checks::{bad_price, bad_status, named};
use checks::moves::customer_may_row;
use checks::request::{Named, Request};
use confirming::confirming::{check_confirm_marked, confirm_own, over_confirming_own};
use layout::ledger::Ledger;
use layout::numbers::{BID, CONFIRMED, CUSTOMER, OFFER, REBID, START, STATUS};
use layout::profile::Profile;
use layout::rows::{set_hours, set_word};
use layout::size::Size;
use paths::exceeding::{Posted, exceeds_confirming_own};
use rules::{Action, Refusal};

// 8 and 13 bid; 13 confirms.

#[tactic(auto, unfolding(rules::specs::CustomerStatus::bids))]
fn is_bid(a: Action) -> bool
    ensures { result ≡ bids a }
{
    matches!(a.status, REBID | CONFIRMED)
}

#[tactic(auto, unfolding(rules::specs::CustomerStatus::confirms))]
fn is_confirming(a: Action) -> bool
    ensures { result ≡ confirms a }
{
    a.status == CONFIRMED
}

// The checks on the row that the action names.

#[tactic(auto, unfolding(rules::specs::CustomerStatus::not_customer))]
fn not_customer(named: Named) -> bool
    ensures { let row = named.entry.reservation.row in result ≡ not_customer named.entry.request.action (own row) }
{
    named.request.action.actor != named.reservation.row.word(CUSTOMER)
}

#[tactic(auto, unfolding(rules::specs::CustomerStatus::no_customer_move))]
fn no_customer_move(named: Named) -> bool
    ensures { let row = named.entry.reservation.row in result ≡ no_customer_move named.entry.request.action (own row) }
{
    !customer_may_row(named.reservation.row, named.request.action.status)
}

#[tactic(auto, unfolding(rules::specs::Checks::bad_if_comes))]
fn bad_bid_profile(named: Named) -> bool
    ensures { let asked = named.entry.request in
        result ≡ bad_if_comes asked.words.now asked.action (own named.entry.reservation.row) }
{
    named.request.bad_if_comes(named.reservation.count())
}

// Requested after the action: the profile that comes, or else requested as it stands in the row.
#[tactic(auto, unfolding(rules::specs::CustomerStatus::requested_after))]
fn requested_after<'a>(named: Named<'a>) -> &'a [u32]
    requires { Suits named.request.words.now named.request.action (own named.reservation.row) }
    ensures { let asked = named.entry.request in let row = named.entry.reservation.row in
        result.now ≡ requested_after row.size.hours asked.words.now asked.action (own row) }
{
    named
        .request
        .profile_or(named.reservation.span(Profile::Requested))
}

// Bid and offer, or requested and granted, are unequal.
#[tactic(auto, using(crate::proofs::Laws::after_length), unfolding(rules::specs::CustomerStatus::unfit_bid))]
fn unfit_bid(named: Named) -> bool
    requires { Suits named.request.words.now named.request.action (own named.reservation.row) }
    ensures { let asked = named.entry.request in let row = named.entry.reservation.row in
        result ≡ unfit_bid row.size.hours asked.words.now asked.action (own row) }
{
    named.request.action.price != named.reservation.row.word(OFFER)
        || !words::all_equal(requested_after(named), named.reservation.in_force())
}

// 12 for 13, and then the checks of confirming with the profile in force.
#[tactic(auto, using(crate::proofs::Laws::chosen), unfolding(rules::specs::CustomerStatus::bid_confirm_number))]
fn check_bid_confirm(named: Named) -> Result<(), Refusal>
    requires { Suits named.request.words.now named.request.action (own named.reservation.row) }
    ensures { let asked = named.entry.request in let row = named.entry.reservation.row in
        number_of result ≡ bid_confirm_number row.size.hours row.words.now asked.words.now asked.action }
{
    if unfit_bid(named) {
        return Err(Refusal::WrongPrice);
    }
    check_confirm_marked(named.reservation)
}

#[tactic(auto, using(crate::proofs::Laws::chosen), unfolding(rules::specs::CustomerStatus::bid_number))]
fn check_bid(named: Named) -> Result<(), Refusal>
    ensures { let asked = named.entry.request in let row = named.entry.reservation.row in
        number_of result ≡ bid_number row.size.hours row.words.now asked.words.now asked.action }
{
    if bad_bid_profile(named) {
        return Err(Refusal::WrongProfile);
    }
    if bad_price(named.request.action) {
        return Err(Refusal::WrongPrice);
    }
    if is_confirming(named.request.action) {
        return check_bid_confirm(named);
    }
    Ok(())
}

// The first check that refuses, if any.
#[tactic(auto, using(crate::proofs::Laws::chosen), unfolding(rules::specs::CustomerStatus::customer_number, rules::specs::Checks::no_reference))]
pub fn check_customer_status(ledger: Ledger, request: Request) -> Result<(), Refusal>
    ensures { let l = ledger.entry in let asked = request.entry in
        number_of result ≡ customer_number l.size.hours l.words.now asked.words.now asked.action }
{
    let named = request.named(ledger)?;
    if bad_status(request.action) {
        return Err(Refusal::OutOfRange);
    }
    if not_customer(named) {
        return Err(Refusal::WrongParty);
    }
    if no_customer_move(named) {
        return Err(Refusal::WrongMove);
    }
    if is_bid(request.action) {
        return check_bid(named);
    }
    Ok(())
}

// The move would carry a word over 100,000.
#[tactic(auto, using(crate::proofs::Laws::accepting))]
pub fn customer_over(ledger: Ledger, request: Request) -> bool
    requires { customer_number ledger.size.hours ledger.words.now request.words.now request.action ≡ 0 }
    ensures { let l = ledger.entry in let asked = request.entry in
        result ≡ carries_over l.size.hours (customer_after l.size.hours l.words.now asked.words.now asked.action) }
{
    let a = request.action;
    is_confirming(a) && over_confirming_own(ledger.reservation(named(a).0))
}

// It would use more of a path than is posted: where it confirms.
#[tactic(auto, using(crate::proofs::Laws::accepting))]
pub fn customer_uses(posted: Posted, request: Request) -> bool
    requires { customer_number posted.ledger.size.hours posted.ledger.words.now request.words.now request.action ≡ 0 }
    ensures { let l = posted.entry.ledger in let a = request.entry.action in
        let exceeds = exceeds_own l.size.hours l.words.now (row_named a) posted.entry.postings.now in
        result ≡ (bids a && (confirms a && exceeds)) }
{
    let a = request.action;
    is_bid(a) && (is_confirming(a) && exceeds_confirming_own(posted, named(a).0))
}

// What is written in the row itself, which is lent: bid, and requested if a profile comes.

#[tactic(auto, unfolding(rules::specs::CustomerStatus::bidden))]
fn bid_row(r: &mut [u32], size: Size, request: Request)
    requires spanned { Spanned size.hours r.old }
    requires suits { Suits request.words.now request.action r.old }
    ensures { r.new ≡ bidden size.hours request.entry.words.now request.entry.action r.old }
{
    let start = r[START] as usize;
    r[BID] = request.action.price;
    if request.comes() {
        set_hours(r, size, Profile::Requested, start, request.profile());
    }
}

// The same in row n of the ledger.

// In place: a function that returns a `&mut` part of a slice gets no proof.
#[tactic(auto, using(crate::proofs::Laws::lent))]
fn bid(l: &mut [u32], size: Size, n: usize, request: Request)
    requires placed { Placed l.old size.rows size.hours n }
    requires suits { Suits request.words.now request.action (row size.hours l.old n) }
    ensures { l.new ≡ on_row size.hours n (bidden size.hours request.entry.words.now request.entry.action) l.old }
{
    let at = size.row_at(n);
    bid_row(&mut l[at..at + size.row_words()], size, request);
}

// 13 confirms with the profile in force, which the bid leaves as it was.
#[tactic(auto, using(crate::proofs::Laws::confirming))]
fn confirm_bid(l: &mut [u32], size: Size, n: usize, request: Request)
    requires placed { Placed l.old size.rows size.hours n }
    requires suits { Suits request.words.now request.action (row size.hours l.old n) }
    requires price { request.action.price ≤ most_price }
    requires fit { unfit_bid size.hours request.words.now request.action (row size.hours l.old n) ≡ false }
    requires ample { short size.hours l.old n (in_force size.hours (row size.hours l.old n)) ≡ false }
    requires not_over { over_confirming size.hours l.old n (in_force size.hours (row size.hours l.old n)) ≡ false }
    ensures { let mw = in_force size.hours (row size.hours l.old n) in
        let bidden = bidden size.hours request.entry.words.now request.entry.action in
        l.new ≡ confirmed size.hours n mw (on_row size.hours n bidden l.old) }
{
    bid(l, size, n, request);
    confirm_own(l, size, n);
}

#[tactic(auto, using(crate::proofs::Laws::accepting))]
pub fn customer_status(l: &mut [u32], size: Size, request: Request)
    requires sound_at { SoundAt l.old size.rows size.hours }
    requires accepted { customer_number size.hours l.old request.words.now request.action ≡ 0 }
    requires not_over { let asked = request in
        carries_over size.hours (customer_after size.hours l.old asked.words.now asked.action) ≡ false }
    ensures { l.new ≡ customer_after size.hours l.old request.entry.words.now request.entry.action }
{
    let a = request.action;
    let n = named(a).0;
    if is_confirming(a) {
        confirm_bid(l, size, n, request);
        return;
    }
    if is_bid(a) {
        bid(l, size, n, request);
    }
    set_word(l, size, n, STATUS, a.status);
}
