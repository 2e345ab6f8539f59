// A contest for a firm row, on the words of a ledger that is lent. Postings are only read: no contest alters them.
#![tactic(auto)]

pub mod contested;
pub mod number;
pub mod playing;

ghost use Rattle.std.specs.Prelude.{◌≡◌, [], ◌≤◌};
ghost use Rattle.rules.specs.Layout.{used};
ghost use Rattle.rules.specs.Contest.{ending, row_kept, contested, contest_number};
ghost use Rattle.rules.proofs.Contested.{row_lost};
ghost use Rattle.layout.specs.SoundAt.{SoundAt};

use crate::contested::Contested;
use crate::number::{check_contest, present_term};
use crate::playing::play;
use layout::entry::Entry;
use layout::ledger::Ledger;
use layout::numbers::{CONFIRMED, DISPLACED};
use layout::profile::Profile;
use layout::size::Size;
use layout::sound::size_of;
use ledger::answering::{refused, span_total};
use megawatts::moving::{displace, over_displacing};
use rules::{Answer, Contest, Ending, Reference, Refusal};

// How the moves end: the last term is at first the row's own hours.
// Moves and replies stay two slices: C hands two over, and each move is read beside its reply once.
fn contest_ending(c: Contested, moves: &[u32], replies: &[u32]) -> Ending
    ensures { let l = c.entry.row.ledger in
        result ≡ ending l.size.hours l.words.now c.entry.contest moves.now replies.now }
{
    let k = c.contest;
    play(k.challenger, k.holder, present_term(c), moves, replies)
}

#[tactic(auto, unfolding(rules::specs::Contest::row_kept))]
fn row_kept(k: Contest) -> Answer
    ensures { result ≡ (row_kept [] [] k).answer }
{
    Answer {
        number: 0,
        reference: k.reference,
        before: CONFIRMED,
        after: CONFIRMED,
        moved: 0,
    }
}

// A row lost is displaced, once the check that is judged last has passed.
fn lose(l: &mut [u32], size: Size, k: Contest) -> Answer
    requires sound_at { SoundAt l.old size.rows size.hours }
    requires le_reference { (1 ≤ k.reference) × (k.reference ≤ used l.old) }
    ensures answer { result ≡ (row_lost size.hours l.old [] k).answer }
    ensures ledger { l.new ≡ (row_lost size.hours l.old [] k).ledger }
{
    let n = rules::row_of(Reference(k.reference)).0;
    let row = Entry {
        ledger: Ledger {
            words: &l[..],
            size,
        },
        n,
    };
    if over_displacing(row.reservation()) {
        return refused(u32::from(Refusal::Unsound));
    }
    let held = span_total(row, Profile::Available);
    displace(l, size, n);
    Answer {
        number: 0,
        reference: k.reference,
        before: CONFIRMED,
        after: DISPLACED,
        moved: held,
    }
}

// A contest that passed the checks before its moves.
fn play_out(l: &mut [u32], postings: &[u32], k: Contest, moves: &[u32], replies: &[u32]) -> Answer
    requires { contest_number l.old postings.now k ≡ 0 }
    ensures answer { result ≡ (contested l.old postings.now k moves.now replies.now).answer }
    ensures ledger { l.new ≡ (contested l.old postings.now k moves.now replies.now).ledger }
{
    let size = size_of(&l[..]);
    let row = Entry {
        ledger: Ledger {
            words: &l[..],
            size,
        },
        n: rules::row_of(Reference(k.reference)).0,
    };
    match contest_ending(Contested { row, contest: k }, moves, replies) {
        Ending::Kept => row_kept(k),
        Ending::Lost => lose(l, size, k),
        Ending::Unfinished => row_kept(k),
        Ending::Refused => refused(u32::from(Refusal::TermOutOfRange)),
    }
}

// A contest on any words.
pub fn run_contest(
    l: &mut [u32],
    postings: &[u32],
    k: Contest,
    moves: &[u32],
    replies: &[u32],
) -> Answer
    ensures answer { result ≡ (contested l.old postings.now k moves.now replies.now).answer }
    ensures ledger { l.new ≡ (contested l.old postings.now k moves.now replies.now).ledger }
{
    match check_contest(&l[..], postings, k) {
        Ok(()) => play_out(l, postings, k, moves, replies),
        Err(refusal) => refused(u32::from(refusal)),
    }
}
