// Sums by hour on a lent slice.
ghost use Rattle.std.specs.Prelude.{◌≡◌, ◌+◌, eqb, length};
ghost use Rattle.words.specs.Lists.{word_at, all_below};
ghost use Rattle.words.specs.Sums.{Adds};
ghost use Rattle.rules.specs.Layout.{hour_at};
ghost use Rattle.rules.specs.Open.{held_of};
ghost use Rattle.layout.specs.Profiles.{part_of};
ghost use Rattle.layout.specs.Rows.{own_of};
ghost use Rattle.opening.specs.Shares.{most_share, most_sum, Sums};

use layout::entry::Entry;
use layout::profile::Profile;

// Its profile p is added.
pub fn add_profile(sums: &mut [u32], entry: Entry, p: Profile)
    requires { Sums entry.ledger.size.hours (most_sum + most_share) sums.old }
    ensures { let hours = entry.entry.ledger.size.hours in
        let own = own_of entry.entry in
        Adds (λ h. word_at own (hour_at hours (part_of p) h)) sums.old sums.new }
{
    words::add(sums, entry.row().hours(p, 0, entry.ledger.size.hours));
}

// Whether the sums are its profile p.
pub fn is_profile(sums: &[u32], entry: Entry, p: Profile) -> bool
    requires { length sums.now ≡ entry.ledger.size.hours }
    ensures { let hours = entry.entry.ledger.size.hours in
        let own = own_of entry.entry in
        result ≡ all_below hours (λ h. eqb (word_at sums.now h) (word_at own (hour_at hours (part_of p) h))) }
{
    entry.row().equals(p, 0, sums)
}

// What it holds is added: available, displaced and reduced.
pub fn add_held(sums: &mut [u32], entry: Entry)
    requires { Sums entry.ledger.size.hours most_sum sums.old }
    ensures { let e = entry.entry in
        Adds (λ h. held_of e.ledger.size.hours e.ledger.words.now h e.n) sums.old sums.new }
{
    add_profile(sums, entry, Profile::Available);
    add_profile(sums, entry, Profile::Displaced);
    add_profile(sums, entry, Profile::Reduced);
}
