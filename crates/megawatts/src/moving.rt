// What moves megawatts, apart from confirming: row n of a ledger is displaced, annulled, reduced.
ghost use Rattle.std.specs.Prelude.{◌≡◌, true, false, not, ◌<◌, length};
ghost use Rattle.words.specs.Lists.{covered, equal};
ghost use Rattle.rules.specs.Layout.{Sized, row, on_row, start, span_hours, granted, available};
ghost use Rattle.rules.specs.Megawatts.{displaced_row, displace as displaces, annulled_row, annul as annuls, reduced_row, reduce as reduces};
ghost use Rattle.rules.proofs.Over.{over_annulling, over_displacing, over_reducing};
ghost use Rattle.layout.specs.Bounds.{Spanned};
ghost use Rattle.layout.specs.Placed.{Placed};
ghost use Rattle.layout.specs.Rows.{own};

use crate::giving::{full, give_granted};
use layout::numbers::{ANNULLED, DISPLACED, MOST_MEGAWATTS, START, STATUS, STOP};
use layout::profile::Profile;
use layout::reservation::Reservation;
use layout::row::Row;
use layout::rows::{add_hours, clear_hours, less_hours};
use layout::size::Size;

// Displacing adds all available to displaced and leaves available 0.

fn displace_row(r: &mut [u32], size: Size)
    requires spanned { Spanned size.hours r.old }
    requires r_value { over_displacing size.hours r.old ≡ false }
    ensures { r.new ≡ displaced_row size.hours r.old }
{
    let start = r[START] as usize;
    let count = r[STOP] as usize - start;
    let to = Profile::Displaced.hours_at(size, start, count);
    let from = Profile::Available.hours_at(size, start, count);
    words::add_part(r, to, from, count);
    clear_hours(r, size, Profile::Available, start, count);
    r[STATUS] = DISPLACED;
}

// In place: a function that returns a `&mut` part of a slice gets no proof.
pub fn displace(l: &mut [u32], size: Size, n: usize)
    requires placed { Placed l.old size.rows size.hours n }
    requires n_value { over_displacing size.hours (row size.hours l.old n) ≡ false }
    ensures { l.new ≡ displaces size.hours n l.old }
{
    let at = size.row_at(n);
    displace_row(&mut l[at..at + size.row_words()], size);
}

#[tactic(auto, unfolding(rules::proofs::Over::over_displacing))]
pub fn over_displacing(r: Reservation) -> bool
    ensures { let row = r.entry.row in result ≡ over_displacing row.size.hours (own row) }
{
    !words::all_roomy(
        MOST_MEGAWATTS,
        r.span(Profile::Available),
        r.span(Profile::Displaced),
    )
}

// Annulling a confirmed row sets available to 0 and, for types 3 to 7, gives granted back.

fn annul_row(r: &mut [u32], size: Size)
    requires { Spanned size.hours r.old }
    ensures { r.new ≡ annulled_row size.hours r.old }
{
    let first = r[START] as usize;
    let count = r[STOP] as usize - first;
    clear_hours(r, size, Profile::Available, first, count);
    r[STATUS] = ANNULLED;
}

// In place: a function that returns a `&mut` part of a slice gets no proof.
fn annul_own(l: &mut [u32], size: Size, n: usize)
    requires sized { Sized l.old size.rows size.hours }
    requires n_lt_rows { n < size.rows }
    requires spanned { Spanned size.hours (row size.hours l.old n) }
    ensures { l.new ≡ on_row size.hours n (annulled_row size.hours) l.old }
{
    let at = size.row_at(n);
    annul_row(&mut l[at..at + size.row_words()], size);
}

#[tactic(auto, using(layout::proofs::Placed::sized, layout::proofs::Placed::in_rows))]
pub fn annul(l: &mut [u32], size: Size, n: usize)
    requires placed { Placed l.old size.rows size.hours n }
    requires n_value { over_annulling size.hours l.old n ≡ false }
    ensures { l.new ≡ annuls size.hours n l.old }
{
    let row = Row {
        words: &l[..],
        size,
        n,
    };
    let Some(above) = (Reservation { row }).above() else {
        annul_own(l, size, n);
        return;
    };
    let above = above.row.n;
    give_granted(l, size, n, above);
    annul_own(l, size, n);
}

#[tactic(auto, unfolding(rules::proofs::Over::over_annulling))]
pub fn over_annulling(r: Reservation) -> bool
    ensures { let row = r.entry.row in result ≡ over_annulling row.size.hours row.words.now row.n }
{
    match r.above() {
        None => false,
        Some(above) => full(above.row, r.row.start(), r.span(Profile::Granted)),
    }
}

// Some of what was granted is no longer available.
pub fn partly_used(r: Reservation) -> bool
    ensures { let row = r.entry.row in
        result ≡ not (equal (available row.size.hours (own row)) (granted row.size.hours (own row))) }
{
    !words::all_equal(r.span(Profile::Available), r.span(Profile::Granted))
}

// Reducing subtracts a profile from available and adds it to reduced.

fn reduce_row(r: &mut [u32], size: Size, mw: &[u32])
    requires spanned { Spanned size.hours r.old }
    requires mw_len { length mw.now ≡ span_hours r.old }
    requires r_value { covered mw.now (available size.hours r.old) ≡ true }
    requires r_value_2 { over_reducing size.hours mw.now r.old ≡ false }
    ensures { r.new ≡ reduced_row size.hours (start r.old) mw.now r.old }
{
    let start = r[START] as usize;
    less_hours(r, size, Profile::Available, start, mw);
    add_hours(r, size, Profile::Reduced, start, mw);
}

// In place: a function that returns a `&mut` part of a slice gets no proof.
pub fn reduce(l: &mut [u32], size: Size, n: usize, mw: &[u32])
    requires placed { Placed l.old size.rows size.hours n }
    requires mw_len { length mw.now ≡ span_hours (row size.hours l.old n) }
    requires n_value { covered mw.now (available size.hours (row size.hours l.old n)) ≡ true }
    requires n_value_2 { over_reducing size.hours mw.now (row size.hours l.old n) ≡ false }
    ensures { l.new ≡ reduces size.hours n mw.now l.old }
{
    let at = size.row_at(n);
    reduce_row(&mut l[at..at + size.row_words()], size, mw);
}

#[tactic(auto, unfolding(rules::proofs::Over::over_reducing))]
pub fn over_reducing(r: Reservation, mw: &[u32]) -> bool
    requires { length mw.now ≡ span_hours (own r.row) }
    ensures { let row = r.entry.row in result ≡ over_reducing row.size.hours mw.now (own row) }
{
    !r.row.has_room(Profile::Reduced, r.row.start(), mw)
}
