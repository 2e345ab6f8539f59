// Checks that several kinds of action share.
ghost use Rattle.std.specs.Prelude.{◌≡◌, ◌-◌, ◌≤◌, length};
ghost use Rattle.rules.specs.Numbers.{head_words};
ghost use Rattle.rules.specs.Moves.{is_open};
ghost use Rattle.rules.specs.Checks.{named as row_named, bad_span, unknown_path, bad_price, bad_status, not_provider, waits_at};
ghost use Rattle.layout.specs.Rows.{own};

use crate::moves::{OPEN, is_in};
use layout::create::is_from;
use layout::numbers::{MOST_PATH, MOST_PRICE, MOST_STATUS, PRECONFIRMED, PROVIDER, QUEUED, STATUS};
use layout::row::Row;
use rules::{Action, Reference, RowNumber};

// The row that the action's reference names.
pub fn named(a: Action) -> RowNumber
    ensures { result.0 ≡ row_named a }
{
    rules::row_of(Reference(a.reference))
}

// 6: not start < stop ≤ hours.
#[tactic(auto, unfolding(rules::specs::Checks::bad_span))]
pub fn bad_span(hours: usize, a: Action) -> bool
    ensures { result ≡ bad_span hours a }
{
    !((a.start < a.stop) & (a.stop as usize <= hours))
}

// The hours that an action names, from start up to, not including, stop.
pub fn span_asked(a: Action) -> usize
    ensures { result ≡ a.stop - a.start }
{
    a.stop.saturating_sub(a.start) as usize
}

// 21: path not 1 to 64.
#[tactic(auto, unfolding(rules::specs::Checks::unknown_path))]
pub fn unknown_path(a: Action) -> bool
    ensures { result ≡ unknown_path a }
{
    !is_from(a.path, 1, MOST_PATH)
}

// 12: price too high.
#[tactic(auto, unfolding(rules::specs::Checks::bad_price))]
pub fn bad_price(a: Action) -> bool
    ensures { result ≡ bad_price a }
{
    MOST_PRICE < a.price
}

// 2: status not 1 to 17.
#[tactic(auto, unfolding(rules::specs::Checks::bad_status))]
pub fn bad_status(a: Action) -> bool
    ensures { result ≡ bad_status a }
{
    !is_from(a.status, QUEUED, MOST_STATUS)
}

// 3: actor not the provider. Words with a head are enough: by document 01 this is asked before a row is read.
#[tactic(auto, unfolding(rules::specs::Checks::not_provider))]
pub fn not_provider(l: &[u32], a: Action) -> bool
    requires { head_words ≤ length l.now }
    ensures { result ≡ not_provider l.now a }
{
    a.actor != l[PROVIDER]
}

// A preconfirmed row at this status.
#[tactic(auto, unfolding(rules::specs::Checks::waits_at))]
pub fn waits_at(row: Row, status: u32) -> bool
    ensures { result ≡ waits_at status (own row.entry) }
{
    row.has(PRECONFIRMED) && row.word(STATUS) == status
}

#[tactic(auto, unfolding(rules::specs::Moves::is_open, crate::specs::Sets::held))]
pub fn is_open(row: Row) -> bool
    ensures { result ≡ is_open (own row.entry) }
{
    is_in(row.word(STATUS), OPEN)
}
