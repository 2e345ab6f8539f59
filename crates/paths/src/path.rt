// A path.
ghost use Rattle.std.specs.Prelude.{◌≡◌};
ghost use Rattle.rules.specs.Layout.{path};
ghost use Rattle.paths.specs.Exceeding.{KnownPath};

use layout::numbers::PATH;
use layout::reservation::Reservation;

// One of the 64 paths, from 1.
#[derive(Clone, Copy)]
pub struct Path {
    pub number: u32,
    ghost in_range: { KnownPath number },
}

impl Path {
    ghost use Rattle.layout.specs.Rows.{own};

    // The path of a row.
    pub fn of(r: Reservation) -> Path
        ensures { result.number ≡ path (own r.entry.row) }
    {
        Path {
            number: r.row.word(PATH),
        }
    }
}
