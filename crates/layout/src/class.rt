// Types of requests, and whether a row is firm.
ghost use Rattle.std.specs.Prelude.{◌≡◌, [], ◌∷◌};
ghost use Rattle.rules.specs.Pick.{◌among◌};
ghost use Rattle.rules.specs.Sound.{original, transfer, resold, relates as may_relate, firm as is_firm};

use crate::numbers::*;
use crate::row::Row;
use rules::Reference;

// ORIGINAL, firm and non-firm.
#[tactic(auto, unfolding(rules::specs::Sound::original))]
pub fn is_original(t: u32) -> bool
    ensures { result ≡ original t }
{
    ORIGINAL_FIRM <= t && t <= ORIGINAL_NONFIRM
}

// Sold by the related row's customer.
#[tactic(auto, unfolding(rules::specs::Sound::resold))]
pub fn is_resold(t: u32) -> bool
    ensures { result ≡ resold t }
{
    t == RESALE || (t == PART_TRANSFER || t == FULL_TRANSFER)
}

// Types 6 and 7.
#[tactic(auto, unfolding(rules::specs::Sound::transfer))]
pub fn is_transfer(t: u32) -> bool
    ensures { result ≡ transfer t }
{
    t == PART_TRANSFER || t == FULL_TRANSFER
}

// Firm whatever it is related to.
fn is_firm_type(t: u32) -> bool
    ensures { result ≡ (t among (1 ∷ 4 ∷ [])) }
{
    t == ORIGINAL_FIRM || t == FIRM_REDIRECT
}

// Whether a row of type t may be related to one of type u.
#[tactic(auto, unfolding(rules::specs::Sound::relates))]
pub fn relates(t: u32, u: u32) -> bool
    ensures { result ≡ may_relate t u }
{
    if t == RELINQUISH {
        return u == NONFIRM_REDIRECT;
    }
    u != NONFIRM_REDIRECT && u != RELINQUISH
}

// Whether a row is firm, up the chain of related rows. A loop, and no call of itself: a chain may have all rows, and each
// call would keep its own words on the stack.
pub fn firm(row: Row) -> bool
    ensures { let r = row.entry in result ≡ is_firm r.size.hours r.words.now r.n }
{
    let mut at = row;
    loop {
        let t = at.word(REQTYPE);
        if is_firm_type(t) {
            return true;
        }
        if !is_resold(t) {
            return false;
        }
        match Reference(at.word(RELATED)).row(at.n) {
            None => return false,
            Some(above) => at = row.at(above.0),
        }
    }
}
