// Reads and writes the time stamps that standard input lists, and compares each result with the one listed.
// A line has 44 bytes and a kind, R for read or W for written; other lines are comments. The listed values were worked
// out with the datetime module of Python. A case that fails is printed; the counts come last.
#![tactic(auto)]

mod case;

use case::{Case, LINE};
use stamp::NotRead;
use std::fmt;
use std::io::{self, Read, Write};

// The cases so far, of each kind, and those that failed.
#[derive(Clone, Copy, Debug, Default, PartialEq, Eq)]
struct Counts {
    read: u32,
    written: u32,
    failed: u32,
}

impl Counts {
    fn count(&mut self, case: &Case<'_>) {
        match case {
            Case::Read { .. } => self.read = self.read.wrapping_add(1),
            Case::Written { .. } => self.written = self.written.wrapping_add(1),
        }
    }

    // Prints a case that fails, as it stands, and counts it.
    fn expect(&mut self, rt: &impl Print, holds: bool, what: &[u8]) -> io::Result<()> {
        if holds {
            return Ok(());
        }
        self.failed = self.failed.wrapping_add(1);
        let mut out = io::writer(rt);
        out.write_all(b"fails: ")?;
        out.write_all(what)
    }

    // A line that states no case is a comment.
    fn check_line(&mut self, rt: &impl Print, line: &[u8]) -> io::Result<()> {
        let Some(case) = Case::of_line(line) else {
            return Ok(());
        };
        self.count(&case);
        self.expect(rt, case.holds(), line)
    }

    // Slices that are not of 16 bytes.
    fn check_lengths(&mut self, rt: &impl Print) -> io::Result<()> {
        for (stamp, what) in [
            ("", "no byte\n"),
            ("20070423060000E", "15 bytes\n"),
            ("20070423060000ES0", "17 bytes\n"),
            ("20070423060000ES20070423060000ES", "32 bytes\n"),
        ] {
            let read = stamp::read_stamp(stamp.as_bytes());
            self.expect(rt, read == Err(NotRead), what.as_bytes())?;
        }
        self.expect(rt, case::is_kept(&mut [b'.'; 15]), b"15 bytes written\n")?;
        self.expect(rt, case::is_kept(&mut [b'.'; 17]), b"17 bytes written\n")
    }
}

impl fmt::Display for Counts {
    fn fmt<W: fmt::Write>(&self, f: &mut fmt::Formatter<W>) -> fmt::Result {
        writeln!(f, "read {}", self.read)?;
        writeln!(f, "written {}", self.written)?;
        write!(f, "failed {}", self.failed)
    }
}

fn main(rt: HostRuntime) -> io::Result<()> {
    let mut input = Vec::new(rt.alloc());
    rt.reader().read_to_end(&mut input)?;
    let mut counts = Counts::default();
    for line in input.chunks_exact(LINE) {
        counts.check_line(&rt, line)?;
    }
    counts.check_lengths(&rt)?;
    println!(rt; "{counts}")
}
