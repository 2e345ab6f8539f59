// Annulments in order: whether references can be annulled one after another, worked out from the ledger as it stands.
#![tactic(auto)]

pub mod backs;
pub mod carrying;
pub mod fitting;
pub mod marks;
pub mod moving;
pub mod rows;
pub mod uses;

ghost use Rattle.std.specs.Prelude.{◌≡◌, true};
ghost use Rattle.rules.specs.Act.{sound_both};
ghost use Rattle.rules.specs.Annulments.{annuls_in_order};

use carrying::Carrying;
use layout::ledger::Ledger;
use layout::numbers::USED;
use layout::sound::{size_of, sound_both};
use moving::Moved;
use rows::Rows;

// Three passes, one after another, on a sound ledger and sound postings.
fn unwinds(rows: Rows, postings: &[u32], refs: &[u32]) -> bool
    requires { sound_both rows.ledger.words.now postings.now ≡ true }
    ensures { result ≡ annuls_in_order rows.entry.ledger.words.now postings.now refs.now }
{
    let mut moved = Moved::none();
    if !rows.note_all(&mut moved, refs) {
        return false;
    }
    if !rows.all_fit(&moved, refs) {
        return false;
    }
    let carrying = Carrying {
        rows,
        postings,
        refs,
    };
    carrying.paths_carry()
}

// Any words, in any number. A list longer than the rows used is a no before anything else is read.
pub fn annuls_in_order(l: &[u32], postings: &[u32], refs: &[u32]) -> bool
    ensures { result ≡ annuls_in_order l.now postings.now refs.now }
{
    if refs.is_empty() {
        return true;
    }
    let Some(used) = l.get(USED) else {
        return false;
    };
    let used = *used as usize;
    if used < refs.len() {
        return false;
    }
    if !sound_both(l, postings) {
        return false;
    }
    let ledger = Ledger {
        words: l,
        size: size_of(l),
    };
    unwinds(Rows { ledger, used }, postings, refs)
}
