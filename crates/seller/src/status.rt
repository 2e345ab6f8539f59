// A seller status that no check refused: whether it would carry a word over 100,000, and what it writes. Row n is the
// row that the action names.
ghost use Rattle.std.specs.Prelude.{◌≡◌, true, false};
ghost use Rattle.rules.specs.Megawatts.{carries_over};
ghost use Rattle.rules.specs.Checks.{named as row_named};
ghost use Rattle.rules.specs.SellerStatus.{offers as is_offer, granted_after, seller_number, other_after, seller_after};
ghost use Rattle.layout.specs.SoundAt.{SoundAt};
ghost use Rattle.layout.specs.Placed.{Placed};
ghost use Rattle.layout.specs.Rows.{own};
ghost use Rattle.checks.specs.Suits.{Suits};
ghost use Rattle.seller.specs.Offer.{over_offer, over_other};
ghost use Rattle.seller.specs.Uses.{offer_uses, seller_uses};

use crate::number::{annuls_confirmed, goes_on, granted_after, offers};
use crate::offer::offer;
use checks::checks::named;
use checks::request::Request;
use confirming::confirming::over_confirming;
use layout::ledger::Ledger;
use layout::numbers::{DISPLACED, STATUS};
use layout::reservation::Reservation;
use layout::rows::set_word;
use layout::size::Size;
use megawatts::moving::{annul, displace, over_annulling, over_displacing};
use paths::exceeding::{Posted, exceeds_annulling, exceeds_confirming};
use rules::Action;

// A relinquish record that goes on to 13 gives back.
#[tactic(auto, using(crate::proofs::Laws::after_length), unfolding(crate::specs::Offer::over_offer))]
fn over_offer(request: Request, r: Reservation) -> bool
    requires { Suits request.words.now request.action (own r.row) }
    ensures { let row = r.entry.row in
        let a = request.entry.action in
        let mw = granted_after row.size.hours request.entry.words.now a (own row) in
        result ≡ over_offer row.size.hours row.words.now row.n a mw }
{
    goes_on(r, request.action) && over_confirming(r, granted_after(request, r))
}

#[tactic(auto, unfolding(crate::specs::Offer::over_other))]
fn over_other(r: Reservation, a: Action) -> bool
    ensures { let row = r.entry.row in result ≡ over_other row.size.hours row.words.now row.n a }
{
    if a.status == DISPLACED {
        return over_displacing(r);
    }
    annuls_confirmed(r, a) && over_annulling(r)
}

// The move would carry an available or displaced word over 100,000.
#[tactic(auto, using(crate::proofs::Laws::judging))]
pub fn seller_over(ledger: Ledger, request: Request) -> bool
    requires { seller_number ledger.size.hours ledger.words.now request.words.now request.action ≡ 0 }
    ensures { let l = ledger.entry in
        let after = seller_after l.size.hours l.words.now request.entry.words.now request.entry.action in
        result ≡ carries_over l.size.hours after }
{
    let r = ledger.reservation(named(request.action).0);
    if offers(request.action) {
        over_offer(request, r)
    } else {
        over_other(r, request.action)
    }
}

// A row that goes on to 13 would use more of a path than is posted.
#[tactic(auto, using(crate::proofs::Laws::going_on), unfolding(crate::specs::Uses::offer_uses))]
fn offer_uses(posted: Posted, request: Request) -> bool
    requires accepted { let l = posted.ledger in
        seller_number l.size.hours l.words.now request.words.now request.action ≡ 0 }
    requires offered { is_offer request.action ≡ true }
    ensures { let l = posted.entry.ledger in
        let asked = request.entry in
        result ≡ offer_uses l.size.hours l.words.now asked.words.now asked.action posted.entry.postings.now }
{
    let n = named(request.action).0;
    let r = posted.ledger.reservation(n);
    goes_on(r, request.action) && exceeds_confirming(posted, n, granted_after(request, r))
}

// The move would use more of a path than is posted: where it confirms or annuls.
#[tactic(auto, using(crate::proofs::Laws::going_on), unfolding(crate::specs::Uses::seller_uses))]
pub fn seller_uses(posted: Posted, request: Request) -> bool
    requires { let l = posted.ledger in
        seller_number l.size.hours l.words.now request.words.now request.action ≡ 0 }
    ensures { let l = posted.entry.ledger in
        let asked = request.entry in
        result ≡ seller_uses l.size.hours l.words.now asked.words.now asked.action posted.entry.postings.now }
{
    if offers(request.action) {
        return offer_uses(posted, request);
    }
    let n = named(request.action).0;
    annuls_confirmed(posted.ledger.reservation(n), request.action) && exceeds_annulling(posted, n)
}

// Row n is displaced, annulled, or has the status alone.
#[tactic(auto, unfolding(rules::specs::SellerStatus::other_after, crate::specs::Offer::over_other))]
fn other_status(l: &mut [u32], size: Size, n: usize, a: Action)
    requires placed { Placed l.old size.rows size.hours n }
    requires named { n ≡ row_named a }
    requires not_over { over_other size.hours l.old n a ≡ false }
    ensures { l.new ≡ other_after size.hours l.old a }
{
    if a.status == DISPLACED {
        displace(l, size, n);
    } else if annuls_confirmed(Reservation::new(&l[..], size, n), a) {
        annul(l, size, n);
    } else {
        set_word(l, size, n, STATUS, a.status);
    }
}

// What the move writes.
#[tactic(auto, using(crate::proofs::Laws::moving))]
pub fn seller_status(l: &mut [u32], size: Size, request: Request)
    requires sound_at { SoundAt l.old size.rows size.hours }
    requires accepted { seller_number size.hours l.old request.words.now request.action ≡ 0 }
    requires not_over { let after = seller_after size.hours l.old request.words.now request.action in
        carries_over size.hours after ≡ false }
    ensures { l.new ≡ seller_after size.hours l.old request.entry.words.now request.entry.action }
{
    let n = named(request.action).0;
    if offers(request.action) {
        offer(l, size, n, request);
    } else {
        other_status(l, size, n, request.action);
    }
}
