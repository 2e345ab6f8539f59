// Whether a ledger is sound.
ghost use Rattle.std.specs.Prelude.{◌≡◌, true, ◌&&◌, ◌+◌, ◌<◌, ◌≤◌, length, drop};
ghost use Rattle.words.specs.Lists.{all_below, within, zeros};
ghost use Rattle.rules.specs.Numbers.{row_words, profiles, most_hours, most_megawatts};
ghost use Rattle.rules.specs.Layout.{Sized, rows, hours, row_base, row_size, row, reqtype, start as start_of, stop as stop_of, hours_of};
ghost use Rattle.rules.specs.Sound.{inside, relates as may_relate, sound_head, sound_words, sound_profile, sound_related, sound_row, sound as is_sound};
ghost use Rattle.rules.specs.Paths.{sound_postings};
ghost use Rattle.rules.specs.Act.{sound_both};
ghost use Rattle.layout.specs.Bounds.{Spanned};
ghost use Rattle.layout.specs.Profiles.{part_of};
ghost use Rattle.layout.specs.Rows.{own};
ghost use Rattle.layout.specs.SoundAt.{SoundAt};

use crate::class::{is_original, relates};
use crate::create::{Creation, is_entity, is_from, is_long};
use crate::numbers::*;
use crate::profile::Profile;
use crate::row::Row;
use crate::size::Size;
use rules::Reference;

// Length, head and rows used within their ranges. The length is compared once rows and hours are in range.
fn sound_head(l: &[u32]) -> bool
    ensures { result ≡ sound_head l.now }
{
    if l.len() < HEAD_WORDS {
        return false;
    }
    let head = Creation {
        rows: l[ROWS],
        hours: l[HOURS],
        provider: l[PROVIDER],
        window: l[WINDOW],
        base: l[BASE],
    };
    head.is_good()
        && (is_long(l, head.size())
            & ((l[CLOCK] < END_SECOND) & ((l[USED] <= head.rows) & (l[HEAD_END] == 0))))
}

// The size of a ledger whose head is sound, read off its words: by way of a `Creation` their ranges would have to be
// shown once more.
fn head_size(l: &[u32]) -> Size
    requires { sound_head l.now ≡ true }
    ensures rows { result.rows ≡ rows l.now }
    ensures hours { result.hours ≡ hours l.now }
{
    Size {
        rows: l[ROWS] as usize,
        hours: l[HOURS] as usize,
    }
}

// The sixteen words of a row.
#[inline(always)]
fn sound_words(row: Row) -> bool
    ensures { result ≡ sound_words row.entry.size.hours (own row.entry) }
{
    let r = row.own();
    is_from(r[REQTYPE], 1, MOST_TYPE)
        & (is_from(r[STATUS], 1, MOST_STATUS)
            & (is_entity(r[CUSTOMER])
                & (is_entity(r[SELLER])
                    & ((r[START] < r[STOP])
                        & ((r[STOP] as usize <= row.size.hours)
                            & ((r[FLAGS] <= MOST_FLAGS)
                                & ((r[BID] <= MOST_PRICE)
                                    & ((r[OFFER] <= MOST_PRICE)
                                        & ((r[LIMIT] < END_LIMIT)
                                            & (is_from(r[PATH], 1, MOST_PATH)
                                                & words::all_zero(
                                                    &r[USED_WORDS..ROW_WORDS],
                                                )))))))))))
}

// Profile p: 0 before the span, at most 100,000 in it, 0 after it.
#[inline(always)]
fn sound_profile(row: Row, p: Profile) -> bool
    requires { Spanned row.size.hours (own row) }
    ensures { result ≡ sound_profile row.entry.size.hours (own row.entry) (part_of p) }
{
    let start = row.word(START) as usize;
    let stop = row.word(STOP) as usize;
    words::all_zero(row.hours(p, 0, start))
        & (words::all_within(MOST_MEGAWATTS, row.hours(p, start, stop - start))
            & words::all_zero(row.hours(p, stop, row.size.hours - stop)))
}

fn sound_profiles(row: Row) -> bool
    requires { Spanned row.size.hours (own row) }
    ensures { result ≡ all_below profiles (λ p. sound_profile row.entry.size.hours (own row.entry) p) }
{
    sound_profile(row, Profile::Requested)
        && (sound_profile(row, Profile::Granted)
            && (sound_profile(row, Profile::Available)
                && (sound_profile(row, Profile::Displaced)
                    && sound_profile(row, Profile::Reduced))))
}

// Whether hours from first up to past lie inside the span of row r.
#[tactic(auto, unfolding(rules::specs::Sound::inside))]
pub fn is_inside(first: u32, past: u32, r: &[u32]) -> bool
    requires { row_words ≤ length r.now }
    ensures { result ≡ inside first past r.now }
{
    (r[START] <= first) & (past <= r[STOP])
}

// Whether row r may be related to the row above.
fn sound_link(r: &[u32], above: &[u32]) -> bool
    requires { (row_words ≤ length r.now) × (row_words ≤ length above.now) }
    ensures { result ≡ (may_relate (reqtype r.now) (reqtype above.now) && inside (start_of r.now) (stop_of r.now) above.now) }
{
    relates(r[REQTYPE], above[REQTYPE]) & is_inside(r[START], r[STOP], above)
}

// A row, and the row that it is related to.
#[inline(always)]
fn sound_related(row: Row) -> bool
    ensures { let r = row.entry in result ≡ sound_related r.size.hours r.words.now r.n }
{
    let r = row.own();
    let related = r[RELATED];
    if is_original(r[REQTYPE]) {
        return related == 0;
    }
    match Reference(related).row(row.n) {
        None => false,
        Some(above) => sound_link(r, row.at(above.0).own()),
    }
}

fn sound_row(row: Row) -> bool
    ensures { let r = row.entry in result ≡ sound_row r.size.hours r.words.now r.n }
{
    sound_words(row) && (sound_profiles(row) && sound_related(row))
}

fn sound_rows(l: &[u32], size: Size, used: usize) -> bool
    requires sized { Sized l.now size.rows size.hours }
    requires used_le_rows { used ≤ size.rows }
    ensures { result ≡ all_below used (λ n. sound_row size.hours l.now n) }
{
    (0..used).all(
        |n: usize| -> bool
            requires sized { Sized l.now size.rows size.hours }
            requires n_lt_rows { n < size.rows }
            ensures { result ≡ sound_row size.hours l.entry.now n }
        { sound_row(Row { words: l, size, n }) },
    )
}

// Rows that are not used are 0.
fn unused_zero(l: &[u32], size: Size, used: usize) -> bool
    requires sized { Sized l.now size.rows size.hours }
    requires used_le_rows { used ≤ size.rows }
    ensures { result ≡ zeros (drop (row_base size.hours used) l.now) }
{
    let at = size.end_at(used);
    words::all_zero(&l[at..])
}

// Any words, in any number.
pub fn sound(l: &[u32]) -> bool
    ensures { result ≡ is_sound l.now }
{
    if !sound_head(l) {
        return false;
    }
    let size = head_size(l);
    let used = l[USED] as usize;
    sound_rows(l, size, used) && unused_zero(l, size, used)
}

// Its size.
pub fn size_of(l: &[u32]) -> Size
    requires { is_sound l.now ≡ true }
    ensures { SoundAt l.now result.rows result.hours }
{
    head_size(l)
}

// The right length for these hours, and no word over 100,000.
pub fn sound_postings(postings: &[u32], size: Size) -> bool
    ensures { result ≡ sound_postings size.hours postings.now }
{
    postings.len() == MOST_PATH as usize * size.hours && words::all_within(MOST_MEGAWATTS, postings)
}

// The ledger, and the postings for its hours.
pub fn sound_both(l: &[u32], postings: &[u32]) -> bool
    ensures { result ≡ sound_both l.now postings.now }
{
    if !sound(l) {
        return false;
    }
    sound_postings(postings, size_of(l))
}
