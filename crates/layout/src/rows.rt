// Writes in a row, and the flags. What writes takes the words, the size and the row apart and says what it asks of them
// in clauses, here and in all crates above: a struct that holds a `&mut` has to keep its ghost fact at each write.
ghost use Rattle.std.specs.Prelude.{◌≡◌, true, ◌+◌, ◌<◌, ◌≤◌, length, get_or, set};
ghost use Rattle.words.specs.Lists.{covered, equal, roomy, most_word};
ghost use Rattle.rules.specs.Numbers.{row_words, most_megawatts, most_flags, countered};
ghost use Rattle.rules.specs.Layout.{Sized, row, on_row, hours_of, set_hours, add_hours, less_hours, clear_hours, has_flag, flagged, row_size};
ghost use Rattle.rules.proofs.Seen.{Room};
ghost use Rattle.layout.specs.Profiles.{part_of};

use crate::numbers::MOST_MEGAWATTS;
use crate::profile::Profile;
use crate::size::Size;

// Word k of row n becomes v.
pub fn set_word(l: &mut [u32], size: Size, n: usize, k: usize, v: u32)
    requires sized { Sized l.old size.rows size.hours }
    requires n_lt_rows { (n < size.rows) × (k < row_words) }
    ensures { l.new ≡ on_row size.hours n (λ r. set r k v) l.old }
{
    let at = size.row_at(n);
    l[at + k] = v;
}

#[tactic(auto, unfolding(rules::specs::Layout::has_flag))]
pub fn has_flag(flags: u32, flag: u32) -> bool
    requires { 1 ≤ flag }
    ensures { result ≡ has_flag flag flags }
{
    flags / flag % 2 == 1
}

#[tactic(auto, unfolding(rules::specs::Layout::flagged))]
pub fn flag_raised(flags: u32, flag: u32) -> u32
    requires { (1 ≤ flag) × (flag ≤ countered) × (flags ≤ most_flags) }
    ensures { result ≡ flagged flag flags }
{
    if has_flag(flags, flag) {
        return flags;
    }
    flags + flag
}

// Tests of hours of profile p of a row that is lent alone against v, from start on: v is at most them; v is they;
// together they are at most 100,000.

pub fn covers_hours(r: &[u32], size: Size, p: Profile, start: usize, v: &[u32]) -> bool
    requires { Room size.hours start v.now r.now }
    ensures { result ≡ covered v.now (hours_of size.hours (part_of p) start (length v.now) r.now) }
{
    let from = p.hours_at(size, start, v.len());
    words::all_covered(v, &r[from..from + v.len()])
}

pub fn equals_hours(r: &[u32], size: Size, p: Profile, start: usize, v: &[u32]) -> bool
    requires { Room size.hours start v.now r.now }
    ensures { result ≡ equal v.now (hours_of size.hours (part_of p) start (length v.now) r.now) }
{
    let from = p.hours_at(size, start, v.len());
    words::all_equal(v, &r[from..from + v.len()])
}

pub fn room_hours(r: &[u32], size: Size, p: Profile, start: usize, v: &[u32]) -> bool
    requires { Room size.hours start v.now r.now }
    ensures { result ≡ roomy most_megawatts v.now (hours_of size.hours (part_of p) start (length v.now) r.now) }
{
    let from = p.hours_at(size, start, v.len());
    words::all_roomy(MOST_MEGAWATTS, v, &r[from..from + v.len()])
}

// Writes of hours of profile p, from start on: they become v, or 0; v is taken off, or added. One call each: a closure
// that writes would carry clauses longer than they are.

pub fn set_hours(r: &mut [u32], size: Size, p: Profile, start: usize, v: &[u32])
    requires { Room size.hours start v.now r.old }
    ensures { r.new ≡ set_hours size.hours (part_of p) start v.now r.old }
{
    let from = p.hours_at(size, start, v.len());
    words::copy(&mut r[from..from + v.len()], v);
}

pub fn clear_hours(r: &mut [u32], size: Size, p: Profile, start: usize, count: usize)
    requires r_len { length r.old ≡ row_size size.hours }
    requires fits { start + count ≤ size.hours }
    ensures { r.new ≡ clear_hours size.hours (part_of p) start count r.old }
{
    let from = p.hours_at(size, start, count);
    words::clear(&mut r[from..from + count]);
}

pub fn less_hours(r: &mut [u32], size: Size, p: Profile, start: usize, v: &[u32])
    requires room { Room size.hours start v.now r.old }
    requires r_value { covered v.now (hours_of size.hours (part_of p) start (length v.now) r.old) ≡ true }
    ensures { r.new ≡ less_hours size.hours (part_of p) start v.now r.old }
{
    let from = p.hours_at(size, start, v.len());
    words::subtract(&mut r[from..from + v.len()], v);
}

pub fn add_hours(r: &mut [u32], size: Size, p: Profile, start: usize, v: &[u32])
    requires room { Room size.hours start v.now r.old }
    requires r_value { roomy most_word v.now (hours_of size.hours (part_of p) start (length v.now) r.old) ≡ true }
    ensures { r.new ≡ add_hours size.hours (part_of p) start v.now r.old }
{
    let from = p.hours_at(size, start, v.len());
    words::add(&mut r[from..from + v.len()], v);
}
