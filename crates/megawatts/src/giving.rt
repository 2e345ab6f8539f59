// Megawatts taken from available of a row, and given back to a row. A row of the ledger is lent.
ghost use Rattle.std.specs.Prelude.{◌≡◌, ◌≢◌, true, false, ◌+◌, ◌<◌, ◌≤◌, length};
ghost use Rattle.words.specs.Lists.{covered};
ghost use Rattle.rules.specs.Numbers.{row_words, available_part};
ghost use Rattle.rules.specs.Layout.{Sized, row, on_row, start, hours_of, granted};
ghost use Rattle.rules.specs.Megawatts.{take_from, returns_to, give_back};
ghost use Rattle.rules.proofs.Seen.{Room};
ghost use Rattle.rules.proofs.Over.{full};
ghost use Rattle.layout.specs.Placed.{Placed};
ghost use Rattle.layout.specs.Profiles.{part_of};
ghost use Rattle.layout.specs.Rows.{own};

use crate::reading::{hours_in, span_at};
use layout::numbers::{CONFIRMED, STATUS};
use layout::profile::Profile;
use layout::reservation::Reservation;
use layout::row::Row;
use layout::rows::{add_hours, less_hours};
use layout::size::Size;

// Giving back adds to available where the row is CONFIRMED, otherwise to its displaced.

fn returns_to(r: &[u32]) -> Profile
    requires { row_words ≤ length r.now }
    ensures { part_of result ≡ returns_to r.now }
{
    if r[STATUS] == CONFIRMED {
        return Profile::Available;
    }
    Profile::Displaced
}

fn give_row(r: &mut [u32], size: Size, start: usize, mw: &[u32])
    requires room { Room size.hours start mw.now r.old }
    requires r_value { full size.hours start mw.now r.old ≡ false }
    ensures { r.new ≡ give_back size.hours start mw.now r.old }
{
    let p = returns_to(&r[..]);
    add_hours(r, size, p, start, mw);
}

// In place: a function that returns a `&mut` part of a slice gets no proof.
pub fn give_back(l: &mut [u32], size: Size, n: usize, start: usize, mw: &[u32])
    requires sized { Sized l.old size.rows size.hours }
    requires n_lt_rows { (n < size.rows) × (start + length mw.now ≤ size.hours) }
    requires n_value { full size.hours start mw.now (row size.hours l.old n) ≡ false }
    ensures { l.new ≡ on_row size.hours n (give_back size.hours start mw.now) l.old }
{
    let at = size.row_at(n);
    give_row(&mut l[at..at + size.row_words()], size, start, mw);
}

// In place: a function that returns a `&mut` part of a slice gets no proof.
pub fn take_from(l: &mut [u32], size: Size, n: usize, start: usize, mw: &[u32])
    requires sized { Sized l.old size.rows size.hours }
    requires n_lt_rows { (n < size.rows) × (start + length mw.now ≤ size.hours) }
    requires n_value { covered mw.now (hours_of size.hours available_part start (length mw.now) (row size.hours l.old n)) ≡ true }
    ensures { l.new ≡ on_row size.hours n (take_from size.hours start mw.now) l.old }
{
    let at = size.row_at(n);
    less_hours(
        &mut l[at..at + size.row_words()],
        size,
        Profile::Available,
        start,
        mw,
    );
}

// Given mw, the row has a word over 100,000.
pub fn full(row: Row, start: usize, mw: &[u32]) -> bool
    requires { start + length mw.now ≤ row.size.hours }
    ensures { result ≡ full row.entry.size.hours start mw.now (own row.entry) }
{
    !row.has_room(returns_to(row.own()), start, mw)
}

// Granted of row n is given back to row m: two places of the one ledger.
#[tactic(auto, using(layout::proofs::Placed::sized, layout::proofs::Placed::in_rows))]
pub fn give_granted(l: &mut [u32], size: Size, n: usize, m: usize)
    requires placed { Placed l.old size.rows size.hours n }
    requires m_lt_rows { (m < size.rows) × (m ≢ n) }
    requires m_value { full size.hours (start (row size.hours l.old n)) (granted size.hours (row size.hours l.old n)) (row size.hours l.old m) ≡ false }
    ensures { l.new ≡ on_row size.hours m (give_back size.hours (start (row size.hours l.old n)) (granted size.hours (row size.hours l.old n))) l.old }
{
    let giving = Reservation {
        row: Row {
            words: &l[..],
            size,
            n,
        },
    };
    let given = Row {
        words: &l[..],
        size,
        n: m,
    };
    let start = giving.row.start();
    let count = giving.count();
    let from = span_at(giving, Profile::Granted);
    let to = hours_in(given, returns_to(given.own()), start, count);
    words::add_part(l, to, from, count);
}
