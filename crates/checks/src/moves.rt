// The moves between statuses.
ghost use Rattle.std.specs.Prelude.{◌≡◌};
ghost use Rattle.rules.specs.Pick.{◌among◌};
ghost use Rattle.rules.specs.Moves.{allowed, seller_moves, customer_moves, seller_may, customer_may};
ghost use Rattle.layout.specs.Rows.{own};
ghost use Rattle.checks.specs.Sets.{members};

use layout::numbers::{
    ACCEPTED, ANNULLED, CONFIRMED, COORDINATED, COUNTERED, COUNTEROFFER, CR_ACCEPTED,
    CR_COUNTEROFFER, DECLINED, DISPLACED, INVALID, MOST_STATUS, PRECONFIRMED, QUEUED, REBID,
    RECEIVED, REFUSED, RELINQUISH, REQTYPE, STATUS, STUDY, SUPERSEDED, WITHDRAWN,
};
use layout::row::Row;

// Sets of statuses, bit s for status s: 1, 3, 4; 1, 3, 4, 8; 6, 7; 10, 11; the open ones. As words they are joined by
// `|` and one test serves all, where patterns would list the same statuses again.
const EARLY: u32 = 1 << QUEUED | 1 << RECEIVED | 1 << STUDY;

const ASKED: u32 = EARLY | 1 << REBID;

const COUNTEROFFERS: u32 = 1 << COUNTEROFFER | 1 << CR_COUNTEROFFER;

const TAKEN: u32 = 1 << ACCEPTED | 1 << CR_ACCEPTED;

pub const OPEN: u32 = ASKED | COUNTEROFFERS | TAKEN;

// A number over 17 is no status.
#[tactic(auto, using(crate::proofs::Sets::in_members))]
pub fn is_in(status: u32, set: u32) -> bool
    ensures { result ≡ (status among members set) }
{
    status <= MOST_STATUS && set >> status & 1 == 1
}

// The moves to a new status, by the old ones they start from.

#[tactic(auto, unfolding(rules::specs::Moves::allowed, rules::specs::Moves::seller_moves, crate::specs::Sets::held))]
pub fn seller_may(
    new: u32,
    status: u32,
    preconfirmed: bool,
    coordinated: bool,
    relinquish: bool,
) -> bool
    ensures { result ≡ allowed (seller_moves preconfirmed coordinated relinquish) new status }
{
    match new {
        RECEIVED => is_in(status, 1 << QUEUED),
        STUDY => is_in(status, 1 << QUEUED | 1 << RECEIVED),
        INVALID => is_in(status, EARLY),
        REFUSED | DECLINED => is_in(status, ASKED),
        SUPERSEDED => is_in(status, OPEN),
        COUNTEROFFER => is_in(status, ASKED | TAKEN) & !coordinated,
        CR_COUNTEROFFER => is_in(status, ASKED | TAKEN) & coordinated,
        ACCEPTED => is_in(status, ASKED) & !coordinated,
        CR_ACCEPTED => is_in(status, ASKED) & coordinated,
        DISPLACED => is_in(status, 1 << CONFIRMED) & !relinquish,
        ANNULLED => {
            is_in(status, 1 << CONFIRMED) & !relinquish | is_in(status, OPEN) & preconfirmed
        }
        _ => false,
    }
}

#[tactic(auto, unfolding(rules::specs::Moves::allowed, rules::specs::Moves::customer_moves, crate::specs::Sets::held))]
pub fn customer_may(new: u32, status: u32, preconfirmed: bool, countered: bool) -> bool
    ensures { result ≡ allowed (customer_moves preconfirmed countered) new status }
{
    match new {
        REBID => is_in(status, COUNTEROFFERS),
        CONFIRMED => is_in(status, COUNTEROFFERS | TAKEN),
        WITHDRAWN => {
            is_in(status, OPEN) & (!preconfirmed | countered)
                | is_in(status, COUNTEROFFERS | 1 << CR_ACCEPTED) & preconfirmed
        }
        _ => false,
    }
}

// The seller, the customer of the row may move it to a new status.

#[tactic(auto, unfolding(rules::specs::Moves::seller_may))]
pub fn seller_may_row(row: Row, new: u32) -> bool
    ensures { result ≡ seller_may (own row.entry) new }
{
    let status = row.word(STATUS);
    let preconfirmed = row.has(PRECONFIRMED);
    let coordinated = row.has(COORDINATED);
    let relinquish = row.word(REQTYPE) == RELINQUISH;
    seller_may(new, status, preconfirmed, coordinated, relinquish)
}

#[tactic(auto, unfolding(rules::specs::Moves::customer_may))]
pub fn customer_may_row(row: Row, new: u32) -> bool
    ensures { result ≡ customer_may (own row.entry) new }
{
    let status = row.word(STATUS);
    let preconfirmed = row.has(PRECONFIRMED);
    let countered = row.has(COUNTERED);
    customer_may(new, status, preconfirmed, countered)
}
