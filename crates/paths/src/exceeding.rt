// Whether use of a path after an action exceeds what is posted for it.
ghost use Rattle.std.specs.Prelude.{◌≡◌, true, false, ◌<◌, ◌≤◌, length};
ghost use Rattle.words.specs.Lists.{part, within};
ghost use Rattle.rules.specs.Numbers.{most_megawatts};
ghost use Rattle.rules.specs.Layout.{used as used_rows, row, span_hours};
ghost use Rattle.rules.specs.Megawatts.{in_force};
ghost use Rattle.rules.specs.Confirming.{short};
ghost use Rattle.rules.specs.Paths.{posting_at};
ghost use Rattle.rules.proofs.After.{use_confirming, use_annulling};
ghost use Rattle.rules.proofs.OverPaths.{exceeds, exceeds_at};
ghost use Rattle.paths.specs.Changes.{use_by, Changing};
ghost use Rattle.paths.specs.Exceeding.{Postings, PostingAt, above, confirmed_rows, Confirms, Annuls};
ghost use Rattle.paths.specs.Own.{exceeds_own};

use crate::adding::Walk;
use crate::change::{Change, Changed};
use crate::path::Path;
use layout::ledger::Ledger;
use layout::numbers::{MOST_HOURS, RELINQUISH, REQTYPE};
use layout::profile::Profile;
use layout::reservation::Reservation;
use layout::size::Size;

// A sound ledger, and the postings for its hours.
#[derive(Clone, Copy)]
pub struct Posted<'a> {
    pub ledger: Ledger<'a>,
    pub postings: &'a [u32],
    ghost postings_value: { Postings ledger.size.hours postings.now },
}

// A change that can be made to the ledger, and is judged by the postings.
#[derive(Clone, Copy)]
struct Judged<'a> {
    posted: Posted<'a>,
    change: Change<'a>,
    ghost changing: { Changing posted.ledger.words.now posted.ledger.size.hours change },
}

// Where hour h of a path stands in the postings.
pub fn posting_at(size: Size, path: Path, h: usize) -> usize
    requires { h ≤ size.hours }
    ensures { PostingAt size.hours path.number h result }
{
    (path.number as usize - 1) * size.hours + h
}

// The postings of a path, hour by hour, of postings for a ledger of this size.
pub fn postings_of(postings: &[u32], size: Size, path: Path) -> &[u32]
    requires { Postings size.hours postings.now }
    ensures is { result.now ≡ part postings.now (posting_at size.hours path.number 0) size.hours }
    ensures long { length result.now ≡ size.hours }
{
    let from = posting_at(size, path, 0);
    &postings[from..from + size.hours]
}

impl<'a> Posted<'a> {
    // Those of a path.
    pub fn of_path(self, path: Path) -> &'a [u32]
        ensures is { let hours = self.entry.ledger.size.hours in
            result.now ≡ part self.entry.postings.now (posting_at hours path.number 0) hours }
        ensures long { length result.now ≡ self.entry.ledger.size.hours }
    {
        postings_of(self.postings, self.ledger.size, path)
    }
}

impl<'a> Judged<'a> {
    // Of a path.
    fn exceeds(self, path: Path) -> bool
        ensures { let judged = self.entry in
            let hours = judged.posted.ledger.size.hours in
            let words = judged.posted.ledger.words.now in
            let postings = judged.posted.postings.now in
            result ≡ exceeds hours postings (λ y h. use_by hours words judged.change y h) path.number }
    {
        // No heap in the library: memory for the most hours.
        let mut buffer = [0u32; MOST_HOURS as usize];
        let sums = &mut buffer[..self.posted.ledger.size.hours];
        let walk = Walk {
            ledger: self.posted.ledger,
            change: self.change,
        };
        walk.add_rows(sums, path.number);
        !words::all_covered(sums, self.posted.of_path(path))
    }

    // Of the path of row n, or of its related row's.
    #[tactic(auto, unfolding(rules::proofs::OverPaths::exceeds_at))]
    fn exceeds_at(self, n: usize) -> bool
        requires { n < used_rows self.posted.ledger.words.now }
        ensures { let judged = self.entry in
            let hours = judged.posted.ledger.size.hours in
            let words = judged.posted.ledger.words.now in
            let postings = judged.posted.postings.now in
            result ≡ exceeds_at hours words n postings (λ y h. use_by hours words judged.change y h) }
    {
        let r = self.posted.ledger.reservation(n);
        let own = Path::of(r);
        if self.exceeds(own) {
            return true;
        }
        match r.above() {
            None => false,
            Some(above) => {
                let path = Path::of(above);
                path.number != own.number && self.exceeds(path)
            }
        }
    }
}

// The row that a row is related to, if any.
fn row_above(r: Reservation) -> Option<usize>
    ensures { result ≡ above r.entry.row.size.hours r.entry.row.words.now r.entry.row.n }
{
    Some(r.above()?.row.n)
}

// The rows that change as a row is confirmed.
#[tactic(auto, using(rules::proofs::Types::derived_type, layout::proofs::Placed::redirect_three))]
fn confirmed(r: Reservation) -> Changed
    ensures { let row = r.entry.row in result ≡ confirmed_rows row.size.hours row.words.now row.n }
{
    if r.row.word(REQTYPE) != RELINQUISH {
        return Changed::Confirmed {
            row: r.row.n,
            above: row_above(r),
        };
    }
    let redirect = r.related();
    Changed::Relinquished {
        record: r.row.n,
        redirect: redirect.row.n,
        above: redirect.related().row.n,
    }
}

// With the megawatts mw.
fn confirming<'a>(r: Reservation, mw: &'a [u32]) -> Change<'a>
    ensures { let row = r.entry.row in Confirms row.size.hours row.words.now row.n mw.now result }
{
    Change {
        rows: confirmed(r),
        start: r.row.start(),
        mw,
    }
}

// A row is annulled: its granted goes back.
fn annulling<'a>(r: Reservation<'a>) -> Change<'a>
    ensures { let row = r.entry.row in Annuls row.size.hours row.words.now row.n result }
{
    let above = row_above(r);
    Change {
        rows: Changed::Annulled {
            row: r.row.n,
            above,
        },
        start: r.row.start(),
        mw: r.span(Profile::Granted),
    }
}

// Once row n is confirmed with the megawatts mw.
pub fn exceeds_confirming(posted: Posted, n: usize, mw: &[u32]) -> bool
    requires n_bound { n < used_rows posted.ledger.words.now }
    requires mw_len { let own = row posted.ledger.size.hours posted.ledger.words.now n in
        (length mw.now ≡ span_hours own) × (within most_megawatts mw.now ≡ true) }
    requires mw_value { short posted.ledger.size.hours posted.ledger.words.now n mw.now ≡ false }
    ensures { let hours = posted.entry.ledger.size.hours in
        let words = posted.entry.ledger.words.now in
        let postings = posted.entry.postings.now in
        result ≡ exceeds_at hours words n postings (λ x h. use_confirming hours words n mw.now x h) }
{
    let change = confirming(posted.ledger.reservation(n), mw);
    Judged { posted, change }.exceeds_at(n)
}

// With the profile in force, read in place.
#[tactic(auto, using(crate::proofs::Changed::force_most))]
pub fn exceeds_confirming_own(posted: Posted, n: usize) -> bool
    requires n_bound { n < used_rows posted.ledger.words.now }
    requires n_value { let hours = posted.ledger.size.hours in
        let words = posted.ledger.words.now in
        short hours words n (in_force hours (row hours words n)) ≡ false }
    ensures { let ledger = posted.entry.ledger in
        result ≡ exceeds_own ledger.size.hours ledger.words.now n posted.entry.postings.now }
{
    exceeds_confirming(posted, n, posted.ledger.reservation(n).in_force())
}

// Once row n is annulled.
pub fn exceeds_annulling(posted: Posted, n: usize) -> bool
    requires { n < used_rows posted.ledger.words.now }
    ensures { let hours = posted.entry.ledger.size.hours in
        let words = posted.entry.ledger.words.now in
        let postings = posted.entry.postings.now in
        result ≡ exceeds_at hours words n postings (λ x h. use_annulling hours words n x h) }
{
    let change = annulling(posted.ledger.reservation(n));
    Judged { posted, change }.exceeds_at(n)
}
