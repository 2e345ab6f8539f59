// A sound ledger.
ghost use Rattle.std.specs.Prelude.{◌≡◌, ◌<◌, MatchOption, false, true};
ghost use Rattle.rules.specs.Layout.{used as used_rows, issued, row_of};
ghost use Rattle.rules.specs.Sound.{sound as is_sound};
ghost use Rattle.layout.specs.SoundAt.{SoundAt};

use crate::numbers::USED;
use crate::reservation::Reservation;
use crate::row::Row;
use crate::size::Size;
use crate::sound::{size_of, sound};
use rules::Reference;

// The words of a sound ledger, with its size.
#[derive(Clone, Copy)]
pub struct Ledger<'a> {
    pub words: &'a [u32],
    pub size: Size,
    ghost sound_at: { SoundAt words.now size.rows size.hours },
}

impl<'a> Ledger<'a> {
    // How many rows are in use.
    #[inline(always)]
    #[tactic(auto, using(crate::proofs::SoundAt::head_fits))]
    pub fn used(self) -> usize
        ensures { result ≡ used_rows self.entry.words.now }
    {
        self.words[USED] as usize
    }

    // Row n, which is in use.
    #[inline(always)]
    pub fn reservation(self, n: usize) -> Reservation<'a>
        requires { n < used_rows self.words.now }
        ensures words { result.row.words.now ≡ self.entry.words.now }
        ensures size { result.row.size ≡ self.entry.size }
        ensures n { result.row.n ≡ n }
    {
        Reservation {
            row: Row {
                words: self.words,
                size: self.size,
                n,
            },
        }
    }

    // The row of a reference that was issued.
    #[tactic(auto, unfolding(rules::specs::Layout::issued))]
    pub fn find(self, reference: u32) -> Option<Reservation<'a>>
        ensures { MatchOption result (issued self.entry.words.now reference ≡ false) (λ r.
            (issued self.entry.words.now reference ≡ true)
            × (r.row.words.now ≡ self.entry.words.now)
            × (r.row.size ≡ self.entry.size)
            × (r.row.n ≡ row_of reference)) }
    {
        let row = Reference(reference).row(self.used())?;
        Some(self.reservation(row.0))
    }

    // Any words, in any number: a ledger where they are sound.
    pub fn of(words: &'a [u32]) -> Option<Ledger<'a>>
        ensures { MatchOption result (is_sound words.now ≡ false) (λ l.
            (is_sound words.now ≡ true) × (l.words.now ≡ words.now)) }
    {
        if !sound(words) {
            return None;
        }
        Some(Ledger {
            words,
            size: size_of(words),
        })
    }
}
