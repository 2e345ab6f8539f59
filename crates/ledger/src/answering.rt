// The answer of an action. What was is read before the ledger is written, what is, after that.
ghost use Rattle.std.specs.Prelude.{◌≡◌, ◌≢◌, true, eqb};
ghost use Rattle.words.specs.Lists.{total};
ghost use Rattle.rules.specs.Pick.{pick};
ghost use Rattle.rules.specs.Numbers.{CONFIRMED as confirmed};
ghost use Rattle.rules.specs.Layout.{hours, span, available};
ghost use Rattle.rules.specs.Checks.{profile};
ghost use Rattle.rules.specs.Act.{kind_after, postings_after, number, refusal, moved_between, moved_by, answered, sound_both};
ghost use Rattle.layout.specs.Profiles.{part_of};
ghost use Rattle.layout.specs.Rows.{own_of};
ghost use Rattle.ledger.specs.Moving.{SmallProfile, Passes};

use crate::applying::apply;
use crate::known::Known;
use checks::checks::named;
use checks::request::Request;
use layout::entry::Entry;
use layout::ledger::Ledger;
use layout::numbers::{ANNULLED, CONFIRMED, DISPLACED, STATUS, USED};
use layout::profile::Profile;
use layout::size::Size;
use layout::sound::size_of;
use rules::{Answer, Kind};

// Five words: a number and four zeros.
#[tactic(auto, unfolding(rules::specs::Act::refusal))]
pub fn refused(number: u32) -> Answer
    ensures { result ≡ refusal number }
{
    Answer {
        number,
        ..Answer::default()
    }
}

// MW-hours of the span's hours of profile p of a row: at most 744 times 100,000, which a word holds.
pub fn span_total(entry: Entry, p: Profile) -> u32
    ensures { let hours = entry.entry.ledger.size.hours in
        result ≡ total (span hours (part_of p) (own_of entry.entry)) }
{
    entry.reservation().total(p) as u32
}

// What a row has available before an action, if it is CONFIRMED: no other status has it counted.
fn held_at(entry: Entry, status: u32) -> u32
    ensures { let hours = entry.entry.ledger.size.hours in
        result ≡ pick (eqb status confirmed) (total (available hours (own_of entry.entry))) 0 }
{
    if status != CONFIRMED {
        return 0;
    }
    span_total(entry, Profile::Available)
}

// A row's way from a status to another; held is what was available before.
#[derive(Clone, Copy)]
struct Passage {
    old: u32,
    new: u32,
    held: u32,
}

// MW-hours moved as the row went this way.
fn moved(entry: Entry, way: Passage) -> u32
    ensures { let hours = entry.entry.ledger.size.hours in
        result ≡ moved_between hours way.old way.new way.held (own_of entry.entry) }
{
    if way.old != CONFIRMED {
        if way.new == CONFIRMED {
            return span_total(entry, Profile::Granted);
        }
        return 0;
    }
    if way.new == ANNULLED {
        return span_total(entry, Profile::Granted);
    }
    if way.new == DISPLACED {
        return way.held;
    }
    0
}

// MW-hours of the action's profile.
fn profile_total(request: Request) -> u32
    requires { SmallProfile request.words.now request.action }
    ensures { let asked = request.entry in result ≡ total (profile asked.words.now asked.action) }
{
    words::total(request.profile()) as u32
}

// MW-hours of the accepted action on a row, from the ledger that it left: what was reduced, or moved.
fn moved_by(known: Known, entry: Entry, way: Passage) -> u32
    requires { known.request.action.kind ≡ 5 → SmallProfile known.request.words.now known.request.action }
    ensures { let hours = entry.entry.ledger.size.hours in let asked = known.entry.request in
        result ≡ moved_by hours asked.words.now asked.action way.old way.new way.held (own_of entry.entry) }
{
    match known.kind {
        Kind::Reduce => profile_total(known.request),
        _ => moved(entry, way),
    }
}

fn accept_submission(known: Known, l: &mut [u32], size: Size) -> Answer
    requires passes { Passes l.old known.request.words.now size.rows size.hours known.request.action }
    requires kind { known.request.action.kind ≡ 1 }
    ensures answer { let asked = known.entry.request in
        result ≡ answered size.hours l.old asked.words.now asked.action
        (kind_after size.hours l.old asked.words.now asked.action) }
    ensures ledger { let asked = known.entry.request in
        l.new ≡ kind_after size.hours l.old asked.words.now asked.action }
{
    let count = l[USED];
    apply(known, l, size);
    let entry = Entry {
        ledger: Ledger {
            words: &l[..],
            size,
        },
        n: count as usize,
    };
    let status = entry.row().word(STATUS);
    let way = Passage {
        old: 0,
        new: status,
        held: 0,
    };
    Answer {
        number: 0,
        reference: count + 1,
        before: 0,
        after: status,
        moved: moved(entry, way),
    }
}

// An action on a row that has a reference.
fn accept_named(known: Known, l: &mut [u32], size: Size) -> Answer
    requires passes { Passes l.old known.request.words.now size.rows size.hours known.request.action }
    requires kind { (known.request.action.kind ≢ 1) × (known.request.action.kind ≢ 7) × (known.request.action.kind ≢ 8) }
    ensures answer { let asked = known.entry.request in
        result ≡ answered size.hours l.old asked.words.now asked.action
        (kind_after size.hours l.old asked.words.now asked.action) }
    ensures ledger { let asked = known.entry.request in
        l.new ≡ kind_after size.hours l.old asked.words.now asked.action }
{
    let n = named(known.request.action).0;
    let was = Entry {
        ledger: Ledger {
            words: &l[..],
            size,
        },
        n,
    };
    let before = was.row().word(STATUS);
    let held = held_at(was, before);
    apply(known, l, size);
    let is = Entry {
        ledger: Ledger {
            words: &l[..],
            size,
        },
        n,
    };
    let after = is.row().word(STATUS);
    let way = Passage {
        old: before,
        new: after,
        held,
    };
    Answer {
        number: 0,
        reference: known.request.action.reference,
        before,
        after,
        moved: moved_by(known, is, way),
    }
}

// The clock gives five zeros.
fn accept_clock(known: Known, l: &mut [u32], size: Size) -> Answer
    requires passes { Passes l.old known.request.words.now size.rows size.hours known.request.action }
    requires kind { known.request.action.kind ≡ 7 }
    ensures answer { let asked = known.entry.request in
        result ≡ answered size.hours l.old asked.words.now asked.action
        (kind_after size.hours l.old asked.words.now asked.action) }
    ensures ledger { let asked = known.entry.request in
        l.new ≡ kind_after size.hours l.old asked.words.now asked.action }
{
    apply(known, l, size);
    refused(0)
}

// An action that passed every check, by its kind. A posting gives five zeros too; it alone writes the postings.
pub fn accept(known: Known, l: &mut [u32], postings: &mut [u32]) -> Answer
    requires { (sound_both l.old postings.old ≡ true)
        × (number true l.old postings.old known.request.words.now known.request.action ≡ 0) }
    ensures answer { let asked = known.entry.request in
        result ≡ answered (hours l.old) l.old asked.words.now asked.action
        (kind_after (hours l.old) l.old asked.words.now asked.action) }
    ensures ledger { let asked = known.entry.request in
        l.new ≡ kind_after (hours l.old) l.old asked.words.now asked.action }
    ensures postings { let asked = known.entry.request in
        postings.new ≡ postings_after (hours l.old) postings.old asked.words.now asked.action }
{
    let size = size_of(&l[..]);
    match known.kind {
        Kind::Submit => accept_submission(known, l, size),
        Kind::Clock => accept_clock(known, l, size),
        Kind::Post => {
            provider::post::post(postings, size, known.request);
            refused(0)
        }
        Kind::SellerStatus | Kind::CustomerStatus | Kind::Approve | Kind::Reduce | Kind::Lapse =>
            accept_named(known, l, size),
    }
}
