// Sums of a walk over the rows, hour by hour, on a lent slice. A type that holds the memory for them could not lend its
// hours for writing: no clause can be shown of a lent part of an array. The walks are compiled into the functions that
// have the memory: there the compiler sees that no row lies in it, and need not ask so before it adds.
ghost use Rattle.std.specs.Prelude.{◌≡◌, ◌<◌, length};
ghost use Rattle.words.specs.Lists.{word_at, noughts};
ghost use Rattle.words.specs.Sums.{Adds, Takes, Summed};
ghost use Rattle.rules.specs.Numbers.{available_part};
ghost use Rattle.rules.specs.Layout.{used as used_rows, row, hour_at, standing};
ghost use Rattle.rules.specs.Paths.{use_of};
ghost use Rattle.layout.specs.Rows.{own_of};
ghost use Rattle.paths.specs.Changes.{held_in, added_by, use_by, Changing, Sums, Adding, Taking};

use crate::change::{Change, Changed, Held};
use layout::entry::Entry;
use layout::ledger::Ledger;
use layout::profile::Profile;

// v is added from hour start on; it is taken off. Each is one call: one function generic in it would be no plainer.

fn add_at(sums: &mut [u32], start: usize, v: &[u32])
    requires { Adding start v.now sums.old }
    ensures { Adds (λ h. standing start v.now h) sums.old sums.new }
{
    words::add(&mut sums[start..start + v.len()], v);
}

fn less_at(sums: &mut [u32], start: usize, v: &[u32])
    requires { Taking start v.now sums.old }
    ensures { Takes (λ h. standing start v.now h) sums.old sums.new }
{
    words::subtract(&mut sums[start..start + v.len()], v);
}

// Available of a row is added, in its span: it is 0 outside.
#[inline(always)]
fn add_available(sums: &mut [u32], entry: Entry)
    requires { Sums entry.ledger.size.hours sums.old }
    ensures { let hours = entry.entry.ledger.size.hours in
        Adds (λ h. word_at (own_of entry.entry) (hour_at hours available_part h)) sums.old sums.new }
{
    let r = entry.reservation();
    add_at(sums, r.row.start(), r.span(Profile::Available));
}

// A ledger, and a change that can be made to it.
#[derive(Clone, Copy)]
pub struct Walk<'a> {
    pub ledger: Ledger<'a>,
    pub change: Change<'a>,
    ghost changing: { Changing ledger.words.now ledger.size.hours change },
}

impl<'a> Walk<'a> {
    // What row m holds after the change is added. Available is added in one place for the three that have it: with more
    // loops the compiler no longer sees whose memory the sums are.
    #[inline(always)]
    fn add_row(self, sums: &mut [u32], m: usize)
        requires m_bound { m < used_rows self.ledger.words.now }
        requires sums { Sums self.ledger.size.hours sums.old }
        ensures { let ledger = self.entry.ledger in
            let own = row ledger.size.hours ledger.words.now m in
            Adds (λ h. held_in ledger.size.hours own self.entry.change m h) sums.old sums.new }
    {
        let c = self.change;
        let entry = Entry {
            ledger: self.ledger,
            n: m,
        };
        let held = c.rows.held(m);
        match held {
            Held::Nought => {}
            Held::Whole => add_at(sums, c.start, c.mw),
            Held::Same | Held::Less | Held::More => {
                add_available(sums, entry);
                match held {
                    Held::Less => less_at(sums, c.start, c.mw),
                    Held::More => add_at(sums, c.start, c.mw),
                    _ => {}
                }
            }
        }
    }

    // The same, if it counts in the use of path x.
    #[inline(always)]
    #[tactic(auto, using(crate::proofs::Walk::row_added))]
    fn add_counted(self, sums: &mut [u32], x: u32, m: usize)
        requires m_bound { m < used_rows self.ledger.words.now }
        requires sums { Sums self.ledger.size.hours sums.old }
        ensures { let ledger = self.entry.ledger in
            Adds (λ h. added_by ledger.size.hours ledger.words.now self.entry.change x m h) sums.old sums.new }
    {
        if self.change.rows.counts(self.ledger.reservation(m), x) {
            self.add_row(sums, m);
        }
    }

    // The walk: sums that were 0 become the use of path x after the change.
    #[inline(always)]
    fn add_each(self, sums: &mut [u32], x: u32)
        requires { sums.old ≡ noughts self.ledger.size.hours }
        ensures { let ledger = self.entry.ledger in
            Summed ledger.size.hours (λ h. use_by ledger.size.hours ledger.words.now self.entry.change x h) sums.new }
    {
        for m in 0..self.ledger.used() {
            self.add_counted(sums, x, m);
        }
    }

    // The sums become the use of path x after the change. What is done is told apart here, before the walk: a walk that
    // asks it of each row takes up to twice as long. With one caller, it is compiled into that.
    pub fn add_rows(self, sums: &mut [u32], x: u32)
        requires { length sums.old ≡ self.ledger.size.hours }
        ensures { let ledger = self.entry.ledger in
            Summed ledger.size.hours (λ h. use_by ledger.size.hours ledger.words.now self.entry.change x h) sums.new }
    {
        words::clear(sums);
        match self.change.rows {
            Changed::Nothing => self.add_each(sums, x),
            Changed::Confirmed { .. } => self.add_each(sums, x),
            Changed::Relinquished { .. } => self.add_each(sums, x),
            Changed::Annulled { .. } => self.add_each(sums, x),
        }
    }
}

// Where nothing changes: the sums become the use of path x.
#[inline(always)]
pub fn add_use(sums: &mut [u32], ledger: Ledger, x: u32)
    requires { length sums.old ≡ ledger.size.hours }
    ensures { let ledger = ledger.entry in
        Summed ledger.size.hours (λ h. use_of ledger.size.hours ledger.words.now x h) sums.new }
{
    let change = Change {
        rows: Changed::Nothing,
        start: 0,
        mw: &[],
    };
    words::clear(sums);
    Walk { ledger, change }.add_each(sums, x);
}
