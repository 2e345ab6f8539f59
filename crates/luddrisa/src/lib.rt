// The ledger for others to link: the calls offered to the outside.
#![tactic(auto)]

mod stamps;

ghost use Rattle.std.specs.Prelude.{◌≡◌, length};
ghost use Rattle.rules.specs.Pick.{pick};
ghost use Rattle.rules.specs.Create.{create_number, created};
ghost use Rattle.rules.specs.Contest.{contested};
ghost use Rattle.rules.specs.Calls.{together_number, together_run, together_answers};
ghost use Rattle.rules.specs.Open.{open_number};
ghost use Rattle.rules.specs.Annulments.{annuls_in_order};
ghost use Rattle.rules.specs.ReadOut.{shown, charge as charge_of};
ghost use Rattle.stamp.specs.Stamp.{reading, comparison, write_number, written};
ghost use Rattle.luddrisa.specs.HandedOut.{handed_out};

use layout::create::Creation;
use rules::{Action, Answer, Contest, Refusal, number_of};
use stamps::{NOT_READ, NOT_WRITTEN};

// A fresh ledger: 0, or 1 with nothing written.
#[unsafe(no_mangle)]
pub extern "C" fn luddrisa_create(
    ledger: &mut [u32],
    rows: u32,
    hours: u32,
    provider: u32,
    window: u32,
    base: u32,
) -> u32
    ensures number { result ≡ create_number ledger.old rows hours provider window base }
    ensures ledger { ledger.new ≡ created ledger.old rows hours provider window base }
{
    let new = Creation {
        rows,
        hours,
        provider,
        window,
        base,
    };
    number_of(layout::create::create(ledger, new))
}

// Opening: 0, 1 for an unsound ledger, or 20 where some hour does not balance. The ledger is only read.
#[unsafe(no_mangle)]
pub extern "C" fn luddrisa_open(ledger: &[u32]) -> u32
    ensures { result ≡ open_number ledger.now }
{
    number_of(opening::check_open(ledger))
}

// Actions in turn, each answered; ledger and postings are tested once. 17: fewer answers than actions, nothing done.
#[unsafe(no_mangle)]
pub extern "C" fn luddrisa_batch(
    ledger: &mut [u32],
    postings: &mut [u32],
    words: &[u32],
    actions: &[Action],
    answers: &mut [Answer],
) -> u32
    ensures number { result ≡ together_number actions.now (length answers.old) }
    ensures ledger { ledger.new ≡ (together_run ledger.old postings.old words.now actions.now (length answers.old)).ledger }
    ensures postings { postings.new ≡ (together_run ledger.old postings.old words.now actions.now (length answers.old)).postings }
    ensures answers { answers.new ≡ together_answers ledger.old postings.old words.now actions.now answers.old }
{
    if answers.len() < actions.len() {
        return u32::from(Refusal::FewerAnswers);
    }
    let sound = layout::sound::sound_both(ledger, postings);
    // By place: of a walk by `iter_mut().zip` an invariant would have to say what the iterator has left.
    for (i, action) in actions.iter().enumerate() {
        answers[i] = ledger::step(ledger, postings, words, sound, *action);
    }
    0
}

// A contest for a firm row, run by its seller: challenger and holder are their greatest terms in hours, moves and
// replies theirs in turn. Only a row lost alters the ledger.
#[unsafe(no_mangle)]
pub extern "C" fn luddrisa_contest(
    ledger: &mut [u32],
    postings: &[u32],
    actor: u32,
    reference: u32,
    challenger: u32,
    holder: u32,
    moves: &[u32],
    replies: &[u32],
) -> Answer
    ensures answer { result ≡ (contested ledger.old postings.now (record { actor = actor; reference = reference; challenger = challenger; holder = holder }) moves.now replies.now).answer }
    ensures ledger { ledger.new ≡ (contested ledger.old postings.now (record { actor = actor; reference = reference; challenger = challenger; holder = holder }) moves.now replies.now).ledger }
{
    let k = Contest {
        actor,
        reference,
        challenger,
        holder,
    };
    contest::run_contest(ledger, postings, k, moves, replies)
}

// Whether the references can be annulled in this order, each by its row's seller: 1, or 0. Ledger and postings are only
// read.
#[unsafe(no_mangle)]
pub extern "C" fn luddrisa_annuls_in_order(
    ledger: &[u32],
    postings: &[u32],
    references: &[u32],
) -> u32
    ensures { result ≡ pick (annuls_in_order ledger.now postings.now references.now) 1 0 }
{
    unwinding::annuls_in_order(ledger, postings, references) as u32
}

// The charge of a CONFIRMED row in cents, or its number with 0 cents.
#[unsafe(no_mangle)]
pub extern "C" fn luddrisa_charge(ledger: &[u32], reference: u32, cents: &mut u64) -> u32
    ensures number { result ≡ (charge_of ledger.now reference).number }
    ensures amount { cents.new ≡ (charge_of ledger.now reference).amount }
{
    let charged = readout::charge(ledger, reference);
    *cents = charged.unwrap_or(0);
    number_of(charged)
}

// Words into the front of out where they fit.
fn hand_out(out: &mut [u32], ws: &[u32])
    ensures { out.new ≡ handed_out out.old ws.now }
{
    if ws.len() <= out.len() {
        words::copy(&mut out[0..ws.len()], ws);
    }
}

// The profile in force into the front of out where it fits, and its number of hours.
#[unsafe(no_mangle)]
pub extern "C" fn luddrisa_profile_in_force(
    ledger: &[u32],
    reference: u32,
    out: &mut [u32],
) -> usize
    ensures hours { result ≡ length (shown ledger.now reference) }
    ensures out { out.new ≡ handed_out out.old (shown ledger.now reference) }
{
    let profile = readout::profile_in_force(ledger, reference);
    hand_out(out, profile);
    profile.len()
}

// The second of a stamp: 0, or 18 with second 0.
#[unsafe(no_mangle)]
pub extern "C" fn luddrisa_read_stamp(bytes: &[u8], second: &mut u32) -> u32
    ensures number { result ≡ (reading bytes.now).number }
    ensures second { second.new ≡ (reading bytes.now).second }
{
    let read = stamp::read_stamp(bytes);
    *second = read.unwrap_or(0);
    stamps::number_of(read, NOT_READ)
}

// Two stamps by their seconds: 0 with order 0, 1 or 2 as the first is earlier, the same or later, or 18 with order 0.
#[unsafe(no_mangle)]
pub extern "C" fn luddrisa_compare_stamps(first: &[u8], second: &[u8], order: &mut u32) -> u32
    ensures number { result ≡ (comparison (reading first.now) (reading second.now)).number }
    ensures order { order.new ≡ (comparison (reading first.now) (reading second.now)).order }
{
    let compared = stamp::compare_stamps(first, second);
    *order = compared.map_or(0, stamps::order_number);
    stamps::number_of(compared, NOT_READ)
}

// The stamp of a second in a zone: 0, or 19 with nothing written.
#[unsafe(no_mangle)]
pub extern "C" fn luddrisa_write_stamp(bytes: &mut [u8], second: u32, zone: u32) -> u32
    ensures number { result ≡ write_number bytes.old second zone }
    ensures stamp { bytes.new ≡ written bytes.old second zone }
{
    stamps::number_of(stamp::write_stamp(bytes, second, zone), NOT_WRITTEN)
}
