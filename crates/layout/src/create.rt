// Creation of a ledger.
ghost use Rattle.std.specs.Prelude.{◌≡◌, ◌≤◌, eqb, length, true};
ghost use Rattle.std.proofs.lemmas.List.Edits.{sets};
ghost use Rattle.rules.specs.Pick.{◌is_from◌to◌};
ghost use Rattle.rules.specs.Numbers.{head_words, entity};
ghost use Rattle.rules.specs.Layout.{row_base};
ghost use Rattle.rules.specs.Create.{good_numbers, creates as may_create, create_number, created};
ghost use Rattle.rules.specs.Refusals.{number_of};
ghost use Rattle.layout.specs.Bounds.{head_of};

use crate::numbers::*;
use crate::size::Size;
use rules::Refusal;

// What a ledger is created with: its rows and hours, its provider, the confirmation window in seconds, the base hour.
// Clauses name the five, as document 01 and the call from C have them.
#[derive(Clone, Copy, Debug, PartialEq, Eq)]
pub struct Creation {
    pub rows: u32,
    pub hours: u32,
    pub provider: u32,
    pub window: u32,
    pub base: u32,
}

// Both are tested, so that the tests of a row's words leave no branch: a range's `contains` may stop at the first.
pub fn is_from(x: u32, least: u32, most: u32) -> bool
    ensures { result ≡ (x is_from least to most) }
{
    (least <= x) & (x <= most)
}

#[tactic(auto, unfolding(rules::specs::Numbers::entity))]
pub fn is_entity(e: u32) -> bool
    ensures { result ≡ entity e }
{
    is_from(e, 1, MOST_ENTITY)
}

// Whether a slice is as long as a ledger of this size.
pub fn is_long(l: &[u32], size: Size) -> bool
    ensures { result ≡ eqb (length l.now) (row_base size.hours size.rows) }
{
    l.len() == size.end_at(size.rows)
}

impl Creation {
    // Rows, hours, provider, window and base hour within their ranges. The last hour is compared in 64 bits.
    pub fn is_good(self) -> bool
        ensures { result ≡ good_numbers self.rows self.hours self.provider self.window self.base }
    {
        let last = self.base as u64 + self.hours as u64;
        is_from(self.rows, 1, MOST_ROWS)
            & (is_from(self.hours, 1, MOST_HOURS)
                & (is_entity(self.provider)
                    & (is_from(self.window, 1, MOST_WINDOW) & (last <= END_HOUR as u64))))
    }

    // The size that good numbers give.
    pub fn size(self) -> Size
        requires { good_numbers self.rows self.hours self.provider self.window self.base ≡ true }
        ensures rows { result.rows ≡ self.rows }
        ensures hours { result.hours ≡ self.hours }
    {
        Size {
            rows: self.rows as usize,
            hours: self.hours as usize,
        }
    }

    // The numbers are good, and then the length of the slice is theirs.
    pub fn fits(self, l: &[u32]) -> bool
        ensures { result ≡ may_create l.now self.rows self.hours self.provider self.window self.base }
    {
        self.is_good() && is_long(l, self.size())
    }
}

fn write_head(l: &mut [u32], new: Creation)
    requires { head_words ≤ length l.old }
    ensures { l.new ≡ sets l.old 0 (head_of new.rows new.hours new.provider new.window new.base) }
{
    l[ROWS] = new.rows;
    l[HOURS] = new.hours;
    l[PROVIDER] = new.provider;
    l[WINDOW] = new.window;
    l[BASE] = new.base;
    l[CLOCK] = 0;
    l[USED] = 0;
    l[HEAD_END] = 0;
}

// A fresh ledger; refused, the slice is unchanged.
pub fn create(ledger: &mut [u32], new: Creation) -> Result<(), Refusal>
    ensures number { number_of result ≡ create_number ledger.old new.rows new.hours new.provider new.window new.base }
    ensures ledger { ledger.new ≡ created ledger.old new.rows new.hours new.provider new.window new.base }
{
    if !new.fits(ledger) {
        return Err(Refusal::Unsound);
    }
    words::clear(&mut ledger[HEAD_WORDS..]);
    write_head(ledger, new);
    Ok(())
}
