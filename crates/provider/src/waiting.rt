// Number 22 of the two actions that confirm a waiting row: approve, lapse.
ghost use Rattle.std.specs.Prelude.{◌≡◌, ◌&&◌};
ghost use Rattle.rules.specs.Checks.{named as row_named, named_row, waits_at};
ghost use Rattle.paths.specs.Own.{exceeds_own};
ghost use Rattle.provider.specs.Waiting.{Waiting};

use checks::checks::{named, waits_at};
use paths::exceeding::{Posted, exceeds_confirming_own};
use rules::Action;

// Whether the row named, which confirms if it is preconfirmed at this status, would use more of a path than is posted.
#[tactic(auto, using(crate::proofs::Laws::waiting))]
pub fn waiting_uses(posted: Posted, a: Action, status: u32) -> bool
    requires { Waiting posted.ledger.size.hours posted.ledger.words.now a status }
    ensures { let hours = posted.entry.ledger.size.hours in
        let words = posted.entry.ledger.words.now in
        let postings = posted.entry.postings.now in
        result ≡ (waits_at status (named_row hours words a) && exceeds_own hours words (row_named a) postings) }
{
    let n = named(a).0;
    waits_at(posted.ledger.reservation(n).row, status) && exceeds_confirming_own(posted, n)
}
