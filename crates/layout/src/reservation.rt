// A row in use.
ghost use Rattle.std.specs.Prelude.{◌≡◌, ◌≤◌, false, true, length, MatchOption};
ghost use Rattle.words.specs.Lists.{total};
ghost use Rattle.rules.specs.Pick.{pick};
ghost use Rattle.rules.specs.Numbers.{most_hours};
ghost use Rattle.rules.specs.Layout.{reqtype, span_hours, span, related_row};
ghost use Rattle.rules.specs.Sound.{original};
ghost use Rattle.rules.specs.Megawatts.{in_force};
ghost use Rattle.layout.specs.Profiles.{part_of};
ghost use Rattle.layout.specs.Placed.{Placed};

use crate::class::is_original;
use crate::numbers::{GRANTED_GIVEN, REQTYPE, STOP};
use crate::profile::Profile;
use crate::row::Row;
use crate::size::Size;

// A row of a ledger that was submitted.
#[derive(Clone, Copy)]
pub struct Reservation<'a> {
    pub row: Row<'a>,
    ghost placed: { Placed row.words.now row.size.rows row.size.hours row.n },
}

// Of the requested and the granted of a row the one in force: granted once given, requested before.
fn one_in_force<'a>(given: bool, requested: &'a [u32], granted: &'a [u32]) -> &'a [u32]
    ensures { result.now ≡ pick given granted.now requested.now }
{
    if given {
        return granted;
    }
    requested
}

impl<'a> Reservation<'a> {
    ghost use Rattle.layout.specs.Rows.{own};

    // Row n of these words.
    pub fn new(words: &'a [u32], size: Size, n: usize) -> Reservation<'a>
        requires { Placed words.now size.rows size.hours n }
        ensures words { result.row.words.now ≡ words.now }
        ensures size { result.row.size ≡ size }
        ensures n { result.row.n ≡ n }
    {
        Reservation {
            row: Row { words, size, n },
        }
    }

    // The hours of its span.
    #[inline(always)]
    pub fn count(self) -> usize
        ensures is { result ≡ span_hours (own self.entry.row) }
        ensures most { result ≤ most_hours }
    {
        self.row.word(STOP) as usize - self.row.start()
    }

    // The span's hours of its profile p.
    #[inline(always)]
    #[tactic(auto, unfolding(rules::specs::Layout::span))]
    pub fn span(self, p: Profile) -> &'a [u32]
        ensures is { let row = self.entry.row in result.now ≡ span row.size.hours (part_of p) (own row) }
        ensures long { length result.now ≡ span_hours (own self.entry.row) }
    {
        self.row.hours(p, self.row.start(), self.count())
    }

    // MW-hours of the span's hours of its profile p.
    pub fn total(self, p: Profile) -> u64
        ensures { let row = self.entry.row in result ≡ total (span row.size.hours (part_of p) (own row)) }
    {
        words::total(self.span(p))
    }

    // Its profile in force: the span's hours.
    #[tactic(auto, unfolding(rules::specs::Megawatts::in_force))]
    pub fn in_force(self) -> &'a [u32]
        ensures is { let row = self.entry.row in result.now ≡ in_force row.size.hours (own row) }
        ensures long { length result.now ≡ span_hours (own self.entry.row) }
    {
        let requested = self.span(Profile::Requested);
        one_in_force(
            self.row.has(GRANTED_GIVEN),
            requested,
            self.span(Profile::Granted),
        )
    }

    // The reservation that it is related to.
    #[inline(always)]
    pub fn related(self) -> Reservation<'a>
        requires { original (reqtype (own self.row)) ≡ false }
        ensures words { result.row.words.now ≡ self.entry.row.words.now }
        ensures size { result.row.size ≡ self.entry.row.size }
        ensures n { let row = self.entry.row in result.row.n ≡ related_row row.size.hours row.words.now row.n }
    {
        Reservation::new(self.row.words, self.row.size, self.row.related_row())
    }

    // The same, or none of an original.
    #[inline(always)]
    pub fn above(self) -> Option<Reservation<'a>>
        ensures { let row = self.entry.row in
            MatchOption result (original (reqtype (own row)) ≡ true) (λ r.
            (original (reqtype (own row)) ≡ false)
            × (r.row.words.now ≡ row.words.now)
            × (r.row.size ≡ row.size)
            × (r.row.n ≡ related_row row.size.hours row.words.now row.n)) }
    {
        if is_original(self.row.word(REQTYPE)) {
            return None;
        }
        Some(self.related())
    }
}
