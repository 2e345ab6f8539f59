// Confirming row n of a ledger with the megawatts mw granted: its checks, whether it would carry a word over 100,000,
// and what it writes. What writes does so in place: a function that returns a `&mut` part of a slice gets no proof.
ghost use Rattle.std.specs.Prelude.{◌≡◌, true, false, ◌+◌, ◌<◌, ◌≤◌, length};
ghost use Rattle.rules.specs.Numbers.{approved, most_hours, most_flags, CONFIRMED as confirmed_status, RELINQUISH as relinquish};
ghost use Rattle.rules.specs.Layout.{has, Sized, row, on_row, reqtype, start, flags, set_status, row_size, span_hours};
ghost use Rattle.rules.specs.Sound.{original};
ghost use Rattle.rules.specs.Megawatts.{grant, in_force};
ghost use Rattle.rules.specs.Confirming.{held, emptied, confirm_original, confirm_derived, confirm_relinquish};
ghost use Rattle.rules.specs.Confirming.{confirm as confirmed};
ghost use Rattle.rules.specs.Confirming.{unapproved, unconfirmed, short, same_span, partial, confirm_number};
ghost use Rattle.rules.specs.Refusals.{number_of};
ghost use Rattle.rules.proofs.Seen.{Room};
ghost use Rattle.rules.proofs.SoundFacts.{SoundWords};
ghost use Rattle.rules.proofs.Over.{over_confirming};
ghost use Rattle.layout.specs.Placed.{Placed};
ghost use Rattle.layout.specs.Rows.{own};

use layout::class::{is_original, is_transfer};
use layout::numbers::{
    APPROVED, CONFIRMED, FLAGS, FULL_TRANSFER, GRANTED_GIVEN, MOST_HOURS, RELINQUISH, REQTYPE,
    START, STATUS, STOP,
};
use layout::profile::Profile;
use layout::reservation::Reservation;
use layout::row::Row;
use layout::rows::{clear_hours, flag_raised, has_flag, set_hours};
use layout::size::Size;
use megawatts::giving::{full, give_back, take_from};
use megawatts::reading::copy_in_force;
use rules::Refusal;

// What is written in the row itself, which is lent.

#[tactic(auto, using(crate::proofs::Laws::set_word), unfolding(rules::specs::Megawatts::grant))]
pub fn grant_row(r: &mut [u32], size: Size, start: usize, mw: &[u32])
    requires room { Room size.hours start mw.now r.old }
    requires flags_bound { flags r.old ≤ most_flags }
    ensures { r.new ≡ grant size.hours start mw.now r.old }
{
    set_hours(r, size, Profile::Granted, start, mw);
    r[FLAGS] = flag_raised(r[FLAGS], GRANTED_GIVEN);
}

// Granted becomes the profile in force: once given it stands, before that requested is copied.
#[tactic(auto, using(crate::proofs::Laws::granted))]
pub fn grant_own_row(r: &mut [u32], size: Size)
    requires r_len { length r.old ≡ row_size size.hours }
    requires sound_words { SoundWords size.hours r.old }
    ensures { r.new ≡ grant size.hours (start r.old) (in_force size.hours r.old) r.old }
{
    if has_flag(r[FLAGS], GRANTED_GIVEN) {
        return;
    }
    let start = r[START] as usize;
    let count = r[STOP] as usize - start;
    let to = Profile::Granted.hours_at(size, start, count);
    let from = Profile::Requested.hours_at(size, start, count);
    words::copy_part(r, to, from, count);
    r[FLAGS] = flag_raised(r[FLAGS], GRANTED_GIVEN);
}

fn settle_row(r: &mut [u32], size: Size, start: usize, mw: &[u32])
    requires room { Room size.hours start mw.now r.old }
    requires flags_bound { flags r.old ≤ most_flags }
    ensures { r.new ≡ set_status confirmed_status (grant size.hours start mw.now r.old) }
{
    grant_row(r, size, start, mw);
    r[STATUS] = CONFIRMED;
}

// A confirmation writes only the span's hours of a row's profile, a part lent on: available becomes mw, or 0.
// Two functions here and two of the ledger: a closure in their place would carry the clauses of a row itself.
#[tactic(auto, using(crate::proofs::Laws::set_word), unfolding(rules::specs::Confirming::held))]
fn hold_row(r: &mut [u32], size: Size, start: usize, mw: &[u32])
    requires room { Room size.hours start mw.now r.old }
    requires flags_bound { flags r.old ≤ most_flags }
    ensures { r.new ≡ held size.hours start mw.now r.old }
{
    set_hours(r, size, Profile::Available, start, mw);
    settle_row(r, size, start, mw);
}

#[tactic(auto, using(crate::proofs::Laws::clear_word), unfolding(rules::specs::Confirming::emptied))]
fn empty_row(r: &mut [u32], size: Size, start: usize, mw: &[u32])
    requires room { Room size.hours start mw.now r.old }
    requires flags_bound { flags r.old ≤ most_flags }
    ensures { r.new ≡ emptied size.hours start mw.now r.old }
{
    clear_hours(r, size, Profile::Available, start, mw.len());
    settle_row(r, size, start, mw);
}

// Row n of the ledger is CONFIRMED: with mw available, or with nothing.

#[tactic(auto, using(crate::proofs::Laws::lent))]
fn hold(l: &mut [u32], size: Size, n: usize, start: usize, mw: &[u32])
    requires sized { Sized l.old size.rows size.hours }
    requires n_lt_rows { (n < size.rows) × (start + length mw.now ≤ size.hours) }
    requires n_bound { flags (row size.hours l.old n) ≤ most_flags }
    ensures { l.new ≡ on_row size.hours n (held size.hours start mw.now) l.old }
{
    let at = size.row_at(n);
    hold_row(&mut l[at..at + size.row_words()], size, start, mw);
}

#[tactic(auto, using(crate::proofs::Laws::lent))]
fn empty(l: &mut [u32], size: Size, n: usize, start: usize, mw: &[u32])
    requires sized { Sized l.old size.rows size.hours }
    requires n_lt_rows { (n < size.rows) × (start + length mw.now ≤ size.hours) }
    requires n_bound { flags (row size.hours l.old n) ≤ most_flags }
    ensures { l.new ≡ on_row size.hours n (emptied size.hours start mw.now) l.old }
{
    let at = size.row_at(n);
    empty_row(&mut l[at..at + size.row_words()], size, start, mw);
}

// Types 1 and 2; types 3 to 7; type 8.

#[tactic(auto, unfolding(rules::specs::Confirming::confirm_original))]
fn confirm_original(l: &mut [u32], size: Size, n: usize, mw: &[u32])
    requires placed { Placed l.old size.rows size.hours n }
    requires mw_len { length mw.now ≡ span_hours (row size.hours l.old n) }
    ensures { l.new ≡ confirm_original size.hours n mw.now l.old }
{
    let r = Reservation::new(&l[..], size, n);
    let start = r.row.start();
    hold(l, size, n, start, mw);
}

#[tactic(auto, using(crate::proofs::Laws::derived), unfolding(rules::specs::Confirming::confirm_derived))]
fn confirm_derived(l: &mut [u32], size: Size, n: usize, mw: &[u32])
    requires placed { Placed l.old size.rows size.hours n }
    requires mw_len { length mw.now ≡ span_hours (row size.hours l.old n) }
    requires mw_value { short size.hours l.old n mw.now ≡ false }
    requires n_value { original (reqtype (row size.hours l.old n)) ≡ false }
    ensures { l.new ≡ confirm_derived size.hours n mw.now l.old }
{
    let r = Reservation::new(&l[..], size, n);
    let start = r.row.start();
    let above = r.row.related_row();
    take_from(l, size, above, start, mw);
    hold(l, size, n, start, mw);
}

#[tactic(auto, using(crate::proofs::Laws::relinquished), unfolding(rules::specs::Confirming::confirm_relinquish))]
fn confirm_relinquish(l: &mut [u32], size: Size, n: usize, mw: &[u32])
    requires placed { Placed l.old size.rows size.hours n }
    requires mw_len { length mw.now ≡ span_hours (row size.hours l.old n) }
    requires mw_value { short size.hours l.old n mw.now ≡ false }
    requires mw_value_2 { over_confirming size.hours l.old n mw.now ≡ false }
    requires n_value { reqtype (row size.hours l.old n) ≡ relinquish }
    ensures { l.new ≡ confirm_relinquish size.hours n mw.now l.old }
{
    let r = Reservation::new(&l[..], size, n);
    let start = r.row.start();
    let redirect = r.row.related_row();
    let above = r.related().row.related_row();
    take_from(l, size, redirect, start, mw);
    give_back(l, size, above, start, mw);
    empty(l, size, n, start, mw);
}

#[tactic(auto, unfolding(rules::specs::Confirming::confirm))]
fn confirm(l: &mut [u32], size: Size, n: usize, mw: &[u32])
    requires placed { Placed l.old size.rows size.hours n }
    requires mw_len { length mw.now ≡ span_hours (row size.hours l.old n) }
    requires mw_value { short size.hours l.old n mw.now ≡ false }
    requires mw_value_2 { over_confirming size.hours l.old n mw.now ≡ false }
    ensures { l.new ≡ confirmed size.hours n mw.now l.old }
{
    let r = Reservation::new(&l[..], size, n);
    let reqtype = r.row.word(REQTYPE);
    if is_original(reqtype) {
        confirm_original(l, size, n, mw);
    } else if reqtype == RELINQUISH {
        confirm_relinquish(l, size, n, mw);
    } else {
        confirm_derived(l, size, n, mw);
    }
}

// The checks of confirming. That the megawatts are one for each hour of the span is a clause: they come from the row or
// from the words lent, and a value of both would be made, and shown, at each call.

#[tactic(auto, unfolding(rules::specs::Confirming::unapproved))]
fn is_unapproved(r: Reservation, approved: bool) -> bool
    ensures { let row = r.entry.row in result ≡ unapproved row.size.hours row.words.now row.n approved }
{
    is_transfer(r.row.word(REQTYPE)) && !approved
}

#[tactic(auto, unfolding(rules::specs::Confirming::unconfirmed))]
fn is_unconfirmed(r: Reservation) -> bool
    ensures { let row = r.entry.row in result ≡ unconfirmed row.size.hours row.words.now row.n }
{
    match r.above() {
        None => false,
        Some(above) => !above.row.is_confirmed(),
    }
}

#[tactic(auto, unfolding(rules::specs::Confirming::short, rules::specs::Confirming::drawn_from))]
fn is_short(r: Reservation, mw: &[u32]) -> bool
    requires { length mw.now ≡ span_hours (own r.row) }
    ensures { let row = r.entry.row in result ≡ short row.size.hours row.words.now row.n mw.now }
{
    match r.above() {
        None => false,
        Some(above) => !above.row.covers(Profile::Available, r.row.start(), mw),
    }
}

#[tactic(auto, unfolding(rules::specs::Confirming::same_span))]
fn same_span(a: Row, b: Row) -> bool
    ensures { result ≡ same_span (own a.entry) (own b.entry) }
{
    a.word(START) == b.word(START) && a.word(STOP) == b.word(STOP)
}

#[tactic(auto, unfolding(rules::specs::Confirming::partial, rules::specs::Confirming::drawn_from))]
fn is_partial(r: Reservation, mw: &[u32]) -> bool
    requires { length mw.now ≡ span_hours (own r.row) }
    ensures { let row = r.entry.row in result ≡ partial row.size.hours row.words.now row.n mw.now }
{
    if r.row.word(REQTYPE) != FULL_TRANSFER {
        return false;
    }
    #[tactic(auto, using(crate::proofs::Laws::related))]
    let above = r.related().row;
    !same_span(r.row, above) || !above.equals(Profile::Available, r.row.start(), mw)
}

#[tactic(auto, using(rules::proofs::Picks::choice), unfolding(rules::specs::Confirming::confirm_number))]
pub fn check_confirm(r: Reservation, mw: &[u32], approved: bool) -> Result<(), Refusal>
    requires { length mw.now ≡ span_hours (own r.row) }
    ensures { let row = r.entry.row in
        number_of result ≡ confirm_number row.size.hours row.words.now row.n mw.now approved }
{
    if is_unapproved(r, approved) {
        return Err(Refusal::Unapproved);
    }
    if is_unconfirmed(r) {
        return Err(Refusal::WrongRelated);
    }
    if is_short(r, mw) {
        return Err(Refusal::Short);
    }
    if is_partial(r, mw) {
        return Err(Refusal::Short);
    }
    Ok(())
}

// A relinquish record would give back more than the row has room for.
#[tactic(auto, using(crate::proofs::Laws::related), unfolding(rules::proofs::Over::over_confirming))]
pub fn over_confirming(r: Reservation, mw: &[u32]) -> bool
    requires { length mw.now ≡ span_hours (own r.row) }
    ensures { let row = r.entry.row in result ≡ over_confirming row.size.hours row.words.now row.n mw.now }
{
    if r.row.word(REQTYPE) != RELINQUISH {
        return false;
    }
    let above = r.related().related();
    full(above.row, r.row.start(), mw)
}

// The same with the row's own profile in force.

pub fn check_confirm_own(r: Reservation, approved: bool) -> Result<(), Refusal>
    ensures { let row = r.entry.row in let mw = in_force row.size.hours (own row) in
        number_of result ≡ confirm_number row.size.hours row.words.now row.n mw approved }
{
    check_confirm(r, r.in_force(), approved)
}

// Approved, if the row is marked so.
pub fn check_confirm_marked(r: Reservation) -> Result<(), Refusal>
    ensures { let row = r.entry.row in let mw = in_force row.size.hours (own row) in
        number_of result ≡ confirm_number row.size.hours row.words.now row.n mw (has approved (own row)) }
{
    check_confirm_own(r, r.row.has(APPROVED))
}

pub fn over_confirming_own(r: Reservation) -> bool
    ensures { let row = r.entry.row in let mw = in_force row.size.hours (own row) in
        result ≡ over_confirming row.size.hours row.words.now row.n mw }
{
    over_confirming(r, r.in_force())
}

// Room for a copy of a span's hours: a day's, with some to spare, which is soon cleared; the longest.
const SHORT_SPAN: usize = 32;

const LONGEST_SPAN: usize = MOST_HOURS as usize;

// The writing has a copy of the profile, since the ledger is written while it is read.
fn confirm_copied<const N: usize>(l: &mut [u32], size: Size, n: usize, count: usize)
    requires placed { Placed l.old size.rows size.hours n }
    requires count_value { count ≡ span_hours (row size.hours l.old n) }
    requires room { (count ≤ N) × (N ≤ most_hours) }
    requires n_value { short size.hours l.old n (in_force size.hours (row size.hours l.old n)) ≡ false }
    requires n_value_2 { over_confirming size.hours l.old n (in_force size.hours (row size.hours l.old n)) ≡ false }
    ensures { l.new ≡ confirmed size.hours n (in_force size.hours (row size.hours l.old n)) l.old }
{
    let mut own = [0u32; N];
    copy_in_force(&mut own[..count], Reservation::new(&l[..], size, n));
    confirm(l, size, n, &own[..count]);
}

pub fn confirm_own(l: &mut [u32], size: Size, n: usize)
    requires placed { Placed l.old size.rows size.hours n }
    requires n_value { short size.hours l.old n (in_force size.hours (row size.hours l.old n)) ≡ false }
    requires n_value_2 { over_confirming size.hours l.old n (in_force size.hours (row size.hours l.old n)) ≡ false }
    ensures { l.new ≡ confirmed size.hours n (in_force size.hours (row size.hours l.old n)) l.old }
{
    let r = Reservation::new(&l[..], size, n);
    let count = r.count();
    if count <= SHORT_SPAN {
        confirm_copied::<SHORT_SPAN>(l, size, n, count);
    } else {
        confirm_copied::<LONGEST_SPAN>(l, size, n, count);
    }
}
