// A row of a ledger.
ghost use Rattle.std.specs.Prelude.{◌≡◌, ◌<◌, ◌≤◌, ◌+◌, length, get_or};
ghost use Rattle.words.specs.Lists.{covered, equal, roomy};
ghost use Rattle.rules.specs.Numbers.{row_words, most_megawatts};
ghost use Rattle.rules.specs.Layout.{Sized, row_size, start, span_hours, has, related_row, hours_of};
ghost use Rattle.rules.specs.Moves.{is_confirmed};
ghost use Rattle.layout.specs.Profiles.{part_of};

use crate::numbers::{CONFIRMED, FLAGS, MOST_MEGAWATTS, RELATED, START, STATUS, STOP};
use crate::profile::Profile;
use crate::rows::has_flag;
use crate::size::Size;
use rules::Reference;

// Row n of the words of a ledger of this size, used or not.
#[derive(Clone, Copy)]
pub struct Row<'a> {
    pub words: &'a [u32],
    pub size: Size,
    pub n: usize,
    ghost sized: { Sized words.now size.rows size.hours },
    ghost n_lt_rows: { n < size.rows },
}

impl<'a> Row<'a> {
    ghost use Rattle.layout.specs.Rows.{own};

    // Its own words, with its profiles.
    #[inline(always)]
    pub fn own(self) -> &'a [u32]
        ensures is { result.now ≡ own self.entry }
        ensures long { length result.now ≡ row_size self.entry.size.hours }
    {
        let at = self.size.row_at(self.n);
        &self.words[at..at + self.size.row_words()]
    }

    // Its word k.
    #[inline(always)]
    pub fn word(self, k: usize) -> u32
        requires { k < row_words }
        ensures { result ≡ get_or (own self.entry) k 0 }
    {
        self.words[self.size.row_at(self.n) + k]
    }

    // Row m of the same words.
    #[inline(always)]
    pub fn at(self, m: usize) -> Row<'a>
        requires { m < self.size.rows }
        ensures words { result.words.now ≡ self.entry.words.now }
        ensures size { result.size ≡ self.entry.size }
        ensures n { result.n ≡ m }
    {
        Row {
            words: self.words,
            size: self.size,
            n: m,
        }
    }

    #[inline(always)]
    #[tactic(auto, unfolding(rules::specs::Moves::is_confirmed))]
    pub fn is_confirmed(self) -> bool
        ensures { result ≡ is_confirmed (own self.entry) }
    {
        self.word(STATUS) == CONFIRMED
    }

    // Its flags have this one.
    pub fn has(self, flag: u32) -> bool
        requires { 1 ≤ flag }
        ensures { result ≡ has flag (own self.entry) }
    {
        has_flag(self.word(FLAGS), flag)
    }

    // The first hour of its span.
    #[inline(always)]
    pub fn start(self) -> usize
        ensures { result ≡ start (own self.entry) }
    {
        self.word(START) as usize
    }

    // The hours of its span: none where it stops before it starts.
    #[inline(always)]
    pub fn count(self) -> usize
        ensures { result ≡ span_hours (own self.entry) }
    {
        self.word(STOP).saturating_sub(self.word(START)) as usize
    }

    // The row that it is related to.
    #[inline(always)]
    #[tactic(auto, unfolding(rules::specs::Layout::related_row))]
    pub fn related_row(self) -> usize
        ensures { let r = self.entry in result ≡ related_row r.size.hours r.words.now r.n }
    {
        rules::row_of(Reference(self.word(RELATED))).0
    }

    // So many of its hours of profile p, from start on.
    #[inline(always)]
    pub fn hours(self, p: Profile, start: usize, count: usize) -> &'a [u32]
        requires { start + count ≤ self.size.hours }
        ensures is { let hours = self.entry.size.hours in
            result.now ≡ hours_of hours (part_of p) start count (own self.entry) }
        ensures long { length result.now ≡ count }
    {
        let from = p.hours_at(self.size, start, count);
        &self.own()[from..from + count]
    }

    // Tests of its hours of profile p against v, from start on: v is at most them; v is they; together they are at most
    // 100,000.

    pub fn covers(self, p: Profile, start: usize, v: &[u32]) -> bool
        requires { start + length v.now ≤ self.size.hours }
        ensures { let hours = self.entry.size.hours in
            result ≡ covered v.now (hours_of hours (part_of p) start (length v.now) (own self.entry)) }
    {
        words::all_covered(v, self.hours(p, start, v.len()))
    }

    pub fn equals(self, p: Profile, start: usize, v: &[u32]) -> bool
        requires { start + length v.now ≤ self.size.hours }
        ensures { let hours = self.entry.size.hours in
            result ≡ equal v.now (hours_of hours (part_of p) start (length v.now) (own self.entry)) }
    {
        words::all_equal(v, self.hours(p, start, v.len()))
    }

    pub fn has_room(self, p: Profile, start: usize, v: &[u32]) -> bool
        requires { start + length v.now ≤ self.size.hours }
        ensures { let hours = self.entry.size.hours in
            result ≡ roomy most_megawatts v.now (hours_of hours (part_of p) start (length v.now) (own self.entry)) }
    {
        words::all_roomy(MOST_MEGAWATTS, v, self.hours(p, start, v.len()))
    }
}
