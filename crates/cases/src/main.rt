// Carries out the script on standard input, and compares every number that it gives with the one that the script
// expects. The head of the script says how its lines are written. What fails is printed with its case and line; the
// counts come last.
#![tactic(auto)]

mod ask;
mod lent;
mod look;
mod perform;
mod report;
mod text;

use perform::{Desk, Shown};
use report::{Counts, Difference, Place, Unfit};
use std::alloc::{AllocError, Global};
use std::fmt::Display;
use std::io;
use std::io::Read;
use text::Line;

// A script of so many bytes is too long: no more of it is read.
const SCRIPT_BYTES: usize = 524288;

// The ledger and the postings, and the counts so far.
#[derive(Drop)]
struct Run {
    desk: Desk,
    counts: Counts,
}

impl Run {
    fn new(alloc: Global) -> Result<Run, AllocError> {
        Ok(Run {
            desk: Desk::new(alloc)?,
            counts: Counts::default(),
        })
    }

    // A line carried out. An action is counted also where it altered what must stay.
    fn perform(&mut self, alloc: Global, line: &Line) -> Result<Vec<u32>, Unfit> {
        let shown = self.desk.perform(alloc, line);
        if matches!(&shown, Ok(Shown::Answer(_)) | Err(Unfit::Altered)) {
            self.counts.actions = self.counts.actions.saturating_add(1);
        }
        Ok(shown?.into_numbers(alloc)?)
    }

    // What a line gives in place of what it expects, where the two differ.
    fn difference(&mut self, alloc: Global, text: &[u8]) -> Result<Option<Difference>, Unfit> {
        let text = str::from_utf8(text).map_err(|_| Unfit::Unreadable)?;
        let line = Line::read(alloc, text)?;
        let got = self.perform(alloc, &line)?;
        let expected = line.expected;
        if got == expected {
            return Ok(None);
        }
        Ok(Some(Difference { expected, got }))
    }

    fn fail(&mut self, rt: &impl Print, place: Place, why: &impl Display) -> io::Result<()> {
        self.counts.failed = self.counts.failed.saturating_add(1);
        place.print_failure(rt, why)
    }

    fn run_line(&mut self, rt: &(impl Print + AllocGlobal), place: Place) -> io::Result<()> {
        match self.difference(rt.alloc(), place.line) {
            Ok(None) => Ok(()),
            Ok(Some(difference)) => self.fail(rt, place, &difference),
            Err(Unfit::NoMemory(error)) => Err(io::Error::from(error)),
            Err(why) => self.fail(rt, place, &why),
        }
    }

    // The lines of a script: a comment, the name of a case, or one that is carried out.
    fn run_script(&mut self, rt: &(impl Print + AllocGlobal), script: &[u8]) -> io::Result<()> {
        let mut case: &[u8] = b"";
        for line in script.split(|byte| *byte == b'\n') {
            if line.is_empty() || line.starts_with(b"#") {
                continue;
            }
            if line == b"case".as_slice() || line.starts_with(b"case ") {
                case = line;
                self.counts.cases = self.counts.cases.saturating_add(1);
                continue;
            }
            self.run_line(rt, Place { case, line })?;
        }
        // This failure stands at no line.
        if script.len() == SCRIPT_BYTES {
            let place = Place {
                case: b"",
                line: b"",
            };
            self.fail(rt, place, &Unfit::LongScript)?;
        }
        Ok(())
    }
}

// The script on standard input, as far as it is read.
fn read_script(rt: &(impl Input + AllocGlobal)) -> io::Result<Vec<u8>> {
    let mut script = Vec::new(rt.alloc());
    rt.reader()
        .take(SCRIPT_BYTES as u64)
        .read_to_end(&mut script)?;
    Ok(script)
}

fn main(rt: HostRuntime) -> io::Result<()> {
    let script = read_script(&rt)?;
    let mut run = Run::new(rt.alloc())?;
    run.run_script(&rt, &script)?;
    let counts = run.counts;
    println!(&rt; "{counts}")
}
