// Whether use of a path exceeds what is to be posted for it. The postings are only read.
ghost use Rattle.std.specs.Prelude.{◌≡◌, true, ◌+◌, ◌≤◌, length};
ghost use Rattle.words.specs.Lists.{splice, covered, within};
ghost use Rattle.rules.specs.Numbers.{most_megawatts};
ghost use Rattle.rules.specs.Paths.{posting_at, over_posted};

use crate::adding::add_use;
use crate::exceeding::Posted;
use crate::path::Path;
use layout::numbers::MOST_HOURS;

// The sums are at most own with the profile from hour start on.
fn is_covered(sums: &[u32], own: &[u32], start: usize, profile: &[u32]) -> bool
    requires { (length own.now ≡ length sums.now) × (start + length profile.now ≤ length sums.now) }
    ensures { result ≡ covered sums.now (splice own.now start profile.now) }
{
    let stop = start + profile.len();
    words::all_covered(&sums[..start], &own[..start])
        & (words::all_covered(&sums[start..stop], profile)
            & words::all_covered(&sums[stop..], &own[stop..]))
}

// As `exceeding` judges a change, against the postings with the profile. One function with the comparison as a closure
// would have to speak of the sums in clauses longer than these bodies.
pub fn exceeds_posting(posted: Posted, path: Path, start: usize, profile: &[u32]) -> bool
    requires { (start + length profile.now ≤ posted.ledger.size.hours) × (within most_megawatts profile.now ≡ true) }
    ensures { let hours = posted.entry.ledger.size.hours in
        let next = splice posted.entry.postings.now (posting_at hours path.number start) profile.now in
        result ≡ over_posted hours posted.entry.ledger.words.now next path.number }
{
    // No heap in the library: memory for the most hours.
    let mut buffer = [0u32; MOST_HOURS as usize];
    let sums = &mut buffer[..posted.ledger.size.hours];
    add_use(sums, posted.ledger, path.number);
    !is_covered(sums, posted.of_path(path), start, profile)
}
