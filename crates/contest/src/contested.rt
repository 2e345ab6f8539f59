// A contest for a row in use of a sound ledger.
ghost use Rattle.std.specs.Prelude.{◌≡◌};
ghost use Rattle.rules.specs.Layout.{row_of};

use layout::entry::Entry;
use rules::Contest;

#[derive(Clone, Copy)]
pub struct Contested<'a> {
    pub row: Entry<'a>,
    pub contest: Contest,
    ghost named: { row.n ≡ row_of contest.reference },
}
