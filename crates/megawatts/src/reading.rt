// Where the hours of a row lie in the ledger, and a copy of its profile in force.
ghost use Rattle.std.specs.Prelude.{◌≡◌, ◌+◌, ◌≤◌, length};
ghost use Rattle.rules.specs.Layout.{start, span_hours};
ghost use Rattle.rules.specs.Megawatts.{in_force};
ghost use Rattle.layout.specs.Profiles.{part_of};
ghost use Rattle.layout.specs.Rows.{own};
ghost use Rattle.megawatts.specs.Places.{HoursIn};

use layout::profile::Profile;
use layout::reservation::Reservation;
use layout::row::Row;

// Where count hours of its profile p start in the ledger, from hour start on.
pub fn hours_in(row: Row, p: Profile, start: usize, count: usize) -> usize
    requires { start + count ≤ row.size.hours }
    ensures { let row = row.entry in HoursIn row.words.now row.size.hours row.n (part_of p) start count result }
{
    row.size.row_at(row.n) + p.hours_at(row.size, start, count)
}

// Where the span's hours of its profile p start in the ledger.
pub fn span_at(r: Reservation, p: Profile) -> usize
    ensures { let row = r.entry.row in
        HoursIn row.words.now row.size.hours row.n (part_of p) (start (own row)) (span_hours (own row)) result }
{
    hours_in(r.row, p, r.row.start(), r.count())
}

// A call of its own: where it is put into its caller, whose `out` nothing else can be, the compiler makes it a `memcpy`,
// which whoever links the library would have to bring.
#[inline(never)]
pub fn copy_in_force(out: &mut [u32], r: Reservation)
    requires { length out.old ≡ span_hours (own r.row) }
    ensures { let row = r.entry.row in out.new ≡ in_force row.size.hours (own row) }
{
    words::copy(out, r.in_force());
}
