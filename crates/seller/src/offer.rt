// What the seller's moves to 6, 7, 10, 11 write. Row n is the row that the action names.
ghost use Rattle.std.specs.Prelude.{◌≡◌, ◌||◌, ◌≤◌, length};
ghost use Rattle.rules.specs.Pick.{when};
ghost use Rattle.rules.specs.Numbers.{row_words, most_price, most_flags, offer_given, countered};
ghost use Rattle.rules.specs.Layout.{row, on_row, row_size, start, flags, raise, set_offer};
ghost use Rattle.rules.specs.Megawatts.{grant};
ghost use Rattle.rules.specs.Checks.{named_row, comes as profile_comes};
ghost use Rattle.rules.specs.SellerStatus.{counters as is_counter, accepts as is_acceptance, granted_after, offered, offer_after};
ghost use Rattle.rules.proofs.SoundFacts.{SoundWords};
ghost use Rattle.layout.specs.Placed.{Placed};
ghost use Rattle.checks.specs.Suits.{Suits};
ghost use Rattle.seller.specs.Offer.{Offering};

use crate::number::{accepts, counters, goes_on};
use checks::request::Request;
use confirming::confirming::{confirm_own, grant_own_row, grant_row};
use layout::numbers::{CLOCK, COUNTERED, FLAGS, LIMIT, OFFER, OFFER_GIVEN, START, STATUS, WINDOW};
use layout::reservation::Reservation;
use layout::rows::flag_raised;
use layout::size::Size;
use rules::Action;

// Granted is replaced if a profile comes; to 10, 11 with granted never given it is requested.
#[tactic(auto, using(rules::proofs::Passed::profile_length), unfolding(rules::specs::SellerStatus::granted_after))]
fn give_row(r: &mut [u32], size: Size, request: Request)
    requires r_len { length r.old ≡ row_size size.hours }
    requires sound_words { SoundWords size.hours r.old }
    requires suits { Suits request.words.now request.action r.old }
    ensures { let a = request.entry.action in
        let mw = granted_after size.hours request.entry.words.now a r.old in
        r.new ≡ when (profile_comes a || is_acceptance a) (grant size.hours (start r.old) mw) r.old }
{
    if request.comes() {
        let start = r[START] as usize;
        grant_row(r, size, start, request.profile());
    } else if accepts(request.action) {
        grant_own_row(r, size);
    }
}

// The offer is the action's price.
fn price_row(r: &mut [u32], a: Action)
    requires r_len { row_words ≤ length r.old }
    requires flags_bound { flags r.old ≤ most_flags }
    ensures { r.new ≡ raise offer_given (set_offer a.price r.old) }
{
    r[OFFER] = a.price;
    r[FLAGS] = flag_raised(r[FLAGS], OFFER_GIVEN);
}

// A move to 6 or 7 marks the row as countered.
fn mark_countered(r: &mut [u32], a: Action)
    requires r_len { row_words ≤ length r.old }
    requires flags_bound { flags r.old ≤ most_flags }
    ensures { r.new ≡ when (is_counter a) (raise countered) r.old }
{
    if counters(a) {
        r[FLAGS] = flag_raised(r[FLAGS], COUNTERED);
    }
}

#[tactic(auto, using(crate::proofs::Laws::priced))]
fn offer_row(r: &mut [u32], size: Size, expires: u32, request: Request)
    requires r_len { length r.old ≡ row_size size.hours }
    requires sound_words { SoundWords size.hours r.old }
    requires suits { Suits request.words.now request.action r.old }
    requires price { request.action.price ≤ most_price }
    ensures { let a = request.entry.action in
        let mw = granted_after size.hours request.entry.words.now a r.old in
        r.new ≡ offered size.hours expires a mw r.old }
{
    price_row(r, request.action);
    give_row(r, size, request);
    r[LIMIT] = expires;
    mark_countered(r, request.action);
    r[STATUS] = request.action.status;
}

// In place: a function that returns a `&mut` part of a slice gets no proof.
#[tactic(auto, using(crate::proofs::Laws::lent))]
fn put_offer(l: &mut [u32], size: Size, n: usize, expires: u32, request: Request)
    requires placed { Placed l.old size.rows size.hours n }
    requires suits { Suits request.words.now request.action (row size.hours l.old n) }
    requires price { request.action.price ≤ most_price }
    ensures { let a = request.entry.action in
        let mw = granted_after size.hours request.entry.words.now a (row size.hours l.old n) in
        l.new ≡ on_row size.hours n (offered size.hours expires a mw) l.old }
{
    let at = size.row_at(n);
    offer_row(&mut l[at..at + size.row_words()], size, expires, request);
}

// The limit is now + window. A preconfirmed row moved to 10 goes on to 13, with what is then in force: granted after
// the move.
#[tactic(auto, unfolding(rules::specs::SellerStatus::offer_after))]
pub fn offer(l: &mut [u32], size: Size, n: usize, request: Request)
    requires { Offering l.old request.words.now size.rows size.hours n request.action }
    ensures { let a = request.entry.action in
        let mw = granted_after size.hours request.entry.words.now a (named_row size.hours l.old a) in
        l.new ≡ offer_after size.hours l.old a mw }
{
    let expires = l[CLOCK] + l[WINDOW];
    let goes = goes_on(Reservation::new(&l[..], size, n), request.action);
    put_offer(l, size, n, expires, request);
    if goes {
        confirm_own(l, size, n);
    }
}
