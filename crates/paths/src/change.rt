// What an action would change of a ledger.
ghost use Rattle.std.specs.Prelude.{◌≡◌};
ghost use Rattle.paths.specs.Changes.{is_at, held_then};

// The rows that an action changes.
#[derive(Clone, Copy)]
pub enum Changed {
    // No row.
    Nothing,
    // The row is CONFIRMED and has the megawatts; the row above, if any, has given them.
    Confirmed {
        row: usize,
        above: Option<usize>,
    },
    // A relinquish record is CONFIRMED: its redirect has given the megawatts to the row above.
    Relinquished {
        record: usize,
        redirect: usize,
        above: usize,
    },
    // The row is annulled: the row above, if any, has been given the megawatts.
    Annulled {
        row: usize,
        above: Option<usize>,
    },
}

// The same, with the megawatts from hour start on.
#[derive(Clone, Copy)]
pub struct Change<'a> {
    pub rows: Changed,
    pub start: usize,
    pub mw: &'a [u32],
}

// What a row holds after a change: as much as before, the megawatts less or more, the megawatts alone, nothing.
#[derive(Clone, Copy)]
pub enum Held {
    Same,
    Less,
    More,
    Whole,
    Nought,
}

// A row that may be none is row m.
#[inline(always)]
fn is_at(row: Option<usize>, m: usize) -> bool
    ensures { result ≡ is_at row m }
{
    match row {
        None => false,
        Some(n) => m == n,
    }
}

impl Changed {
    // Of row m.
    #[inline(always)]
    pub fn held(self, m: usize) -> Held
        ensures { result ≡ held_then self m }
    {
        match self {
            Changed::Nothing => Held::Same,
            Changed::Confirmed { row, above } => {
                if m == row {
                    return Held::Whole;
                }
                if is_at(above, m) {
                    return Held::Less;
                }
                Held::Same
            }
            Changed::Relinquished {
                record,
                redirect,
                above,
            } => {
                if m == record {
                    return Held::Nought;
                }
                if m == redirect {
                    return Held::Less;
                }
                if m == above {
                    return Held::More;
                }
                Held::Same
            }
            Changed::Annulled { above, .. } => {
                if is_at(above, m) {
                    return Held::More;
                }
                Held::Same
            }
        }
    }
}
