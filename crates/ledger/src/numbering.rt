// The checks of an action: the first that applies.
ghost use Rattle.std.specs.Prelude.{◌≡◌, IfOk};
ghost use Rattle.rules.specs.Megawatts.{carries_over};
ghost use Rattle.rules.specs.Act.{common_number, kind_number, kind_after, postings_after, over_use, sound_number, number, sound_both};
ghost use Rattle.rules.specs.Kinds.{kind_code};
ghost use Rattle.rules.specs.Refusals.{number_of};

use crate::known::Known;
use checks::request::Request;
use customer::{check_customer_status, customer_over, customer_uses};
use layout::create::is_entity;
use layout::ledger::Ledger;
use layout::numbers::{ACCEPTED, CR_ACCEPTED};
use layout::sound::size_of;
use paths::exceeding::Posted;
use provider::approve::check_approve;
use provider::clock::check_clock;
use provider::lapse::{check_lapse, lapse_over};
use provider::post::{check_post, post_uses};
use provider::reduce::{check_reduce, reduce_over};
use provider::waiting::waiting_uses;
use rules::{Action, Kind, Refusal};
use seller::number::check_seller_status;
use seller::status::{seller_over, seller_uses};
use submission::checking::check_submit;

// The checks that every action has: the kind of one that passes them. Whether ledger and postings are sound is told: of a
// list of actions they are tested once.
pub fn check_common(sound: bool, a: Action) -> Result<Kind, Refusal>
    ensures number { number_of result ≡ common_number sound a }
    ensures kind { IfOk result (λ kind. kind_code kind ≡ a.kind) }
{
    if !sound {
        return Err(Refusal::Unsound);
    }
    let kind = Kind::try_from(a.kind)?;
    if !is_entity(a.actor) {
        return Err(Refusal::WrongParty);
    }
    Ok(kind)
}

// What follows goes by the kind: each has functions of its own, of other crates, and a match names them. A trait would
// have eight types that hold nothing.

// The checks of its kind.
fn check_kind(known: Known, ledger: Ledger) -> Result<(), Refusal>
    ensures { let l = ledger.entry in let asked = known.entry.request in
        number_of result ≡ kind_number l.size.hours l.words.now asked.words.now asked.action }
{
    let request = known.request;
    match known.kind {
        Kind::Submit => check_submit(ledger, request),
        Kind::SellerStatus => check_seller_status(ledger, request),
        Kind::CustomerStatus => check_customer_status(ledger, request),
        Kind::Approve => check_approve(ledger, request.action),
        Kind::Reduce => check_reduce(ledger, request),
        Kind::Lapse => check_lapse(ledger, request.action),
        Kind::Clock => check_clock(ledger.words, request.action),
        Kind::Post => check_post(ledger.words, ledger.size.hours, request),
    }
}

// Whether use of a path that the action would leave exceeds the posting.
fn kind_uses(known: Known, posted: Posted) -> bool
    requires { kind_number posted.ledger.size.hours posted.ledger.words.now known.request.words.now known.request.action ≡ 0 }
    ensures { let l = posted.entry.ledger in let asked = known.entry.request in
        result ≡ over_use l.size.hours l.words.now asked.action
        (kind_after l.size.hours l.words.now asked.words.now asked.action)
        (postings_after l.size.hours posted.entry.postings.now asked.words.now asked.action) }
{
    let request = known.request;
    match known.kind {
        Kind::SellerStatus => seller_uses(posted, request),
        Kind::CustomerStatus => customer_uses(posted, request),
        Kind::Approve => waiting_uses(posted, request.action, ACCEPTED),
        Kind::Lapse => waiting_uses(posted, request.action, CR_ACCEPTED),
        Kind::Post => post_uses(posted, request),
        Kind::Submit | Kind::Reduce | Kind::Clock => false,
    }
}

// Whether the action would carry an available, displaced or reduced word over 100,000.
fn kind_over(known: Known, ledger: Ledger) -> bool
    requires { kind_number ledger.size.hours ledger.words.now known.request.words.now known.request.action ≡ 0 }
    ensures { let l = ledger.entry in let asked = known.entry.request in
        result ≡ carries_over l.size.hours (kind_after l.size.hours l.words.now asked.words.now asked.action) }
{
    let request = known.request;
    match known.kind {
        Kind::SellerStatus => seller_over(ledger, request),
        Kind::CustomerStatus => customer_over(ledger, request),
        Kind::Reduce => reduce_over(ledger, request),
        Kind::Lapse => lapse_over(ledger, request.action),
        Kind::Submit | Kind::Approve | Kind::Clock | Kind::Post => false,
    }
}

// The checks of a sound ledger: those of the kind, that of the use of paths, and the one that is judged last.
fn check_sound(known: Known, posted: Posted) -> Result<(), Refusal>
    ensures { let l = posted.entry.ledger in let asked = known.entry.request in
        number_of result
        ≡ sound_number l.size.hours l.words.now posted.entry.postings.now asked.words.now asked.action }
{
    check_kind(known, posted.ledger)?;
    if kind_uses(known, posted) {
        return Err(Refusal::OverPosted);
    }
    if kind_over(known, posted.ledger) {
        return Err(Refusal::Unsound);
    }
    Ok(())
}

// All of them: the kind of an action that passes.
pub fn check<'a>(
    l: &'a [u32],
    postings: &'a [u32],
    words: &[u32],
    sound: bool,
    a: Action,
) -> Result<Kind, Refusal>
    requires { sound ≡ sound_both l.now postings.now }
    ensures number { number_of result ≡ number sound l.now postings.now words.now a }
    ensures kind { IfOk result (λ kind. kind_code kind ≡ a.kind) }
{
    let kind = check_common(sound, a)?;
    let request = Request { action: a, words };
    let ledger = Ledger {
        words: l,
        size: size_of(l),
    };
    check_sound(Known { kind, request }, Posted { ledger, postings })?;
    Ok(kind)
}
