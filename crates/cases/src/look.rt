// Words of the ledger, or of the postings, that a line names. There are none where it names too much.
use layout::numbers::*;
use layout::profile::Profile;
use layout::size::Size;
use rules::Reference;
use std::ops::Range;

// Where the rows of a ledger and the postings of its paths lie, by the hours that its head names.
#[derive(Clone, Copy)]
struct Layout {
    size: Size,
}

impl Layout {
    // No hours where the words are too few for a head, or the hours too many. A line may name any row that some ledger
    // has.
    fn of(ledger: &[u32]) -> Layout {
        let head = ledger.get(..HEAD_WORDS);
        let hours = match head.and_then(|head| head.get(HOURS)) {
            Some(hours) if *hours <= MOST_HOURS => *hours,
            _ => 0,
        };
        Layout {
            size: Size {
                rows: MOST_ROWS as usize,
                hours: hours as usize,
            },
        }
    }

    // Where the row of a reference starts.
    fn row_start(self, reference: u32) -> Option<usize> {
        let row = Reference(reference).row(self.size.rows)?;
        Some(self.size.end_at(row.0))
    }

    // Where a profile lies in a row.
    fn profile(self, profile: Profile) -> Range<usize> {
        let hours = self.size.hours;
        let start = profile.hours_at(self.size, 0, hours);
        start..start + hours
    }

    // The part of a row that a verb names: what stands before its path, a part of that, the path, or a profile.
    fn part_of_row(self, verb: &str) -> Option<Range<usize>> {
        let part = match verb {
            "row" => REQTYPE..PATH,
            "status" => STATUS..STATUS + 1,
            "flags" => FLAGS..FLAGS + 1,
            "prices" => BID..OFFER + 1,
            "limit" => LIMIT..LIMIT + 1,
            "path" => PATH..PATH + 1,
            _ => self.profile(profile_named(verb)?),
        };
        Some(part)
    }

    // Where the postings of a path start.
    fn postings_start(self, path: u32) -> Option<usize> {
        if path == 0 || MOST_PATH < path {
            return None;
        }
        Some((path as usize - 1) * self.size.hours)
    }
}

fn profile_named(verb: &str) -> Option<Profile> {
    match verb {
        "requested" => Some(Profile::Requested),
        "granted" => Some(Profile::Granted),
        "available" => Some(Profile::Available),
        "displaced" => Some(Profile::Displaced),
        "reduced" => Some(Profile::Reduced),
        _ => None,
    }
}

// The words that a verb names with a reference; `head` stands alone.
pub fn words_named<'a>(ledger: &'a [u32], verb: &str, fields: &[u32]) -> Option<&'a [u32]> {
    match fields {
        [] if verb == "head" => ledger.get(..HEAD_WORDS),
        [reference] => {
            let layout = Layout::of(ledger);
            let row = ledger.get(layout.row_start(*reference)?..)?;
            row.get(layout.part_of_row(verb)?)
        }
        _ => None,
    }
}

// The word at a place in the row of a reference, or in what follows it.
pub fn word_of_row_mut(ledger: &mut [u32], reference: u32, place: u32) -> Option<&mut u32> {
    let start = Layout::of(ledger).row_start(reference)?;
    ledger.get_mut(start..)?.get_mut(place as usize)
}

// The postings of a path.
pub fn postings_of<'a>(ledger: &[u32], postings: &'a [u32], path: u32) -> Option<&'a [u32]> {
    let layout = Layout::of(ledger);
    let from_path = postings.get(layout.postings_start(path)?..)?;
    from_path.get(..layout.size.hours)
}

// The posting of an hour of a path.
pub fn posting_mut<'a>(
    ledger: &[u32],
    postings: &'a mut [u32],
    path: u32,
    hour: u32,
) -> Option<&'a mut u32> {
    let layout = Layout::of(ledger);
    let hour = hour as usize;
    if layout.size.hours <= hour {
        return None;
    }
    let from_path = postings.get_mut(layout.postings_start(path)?..)?;
    from_path.get_mut(hour)
}
