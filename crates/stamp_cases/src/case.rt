// A line of the list: R for read or W for written, the stamp from place 2 on, the number from 19, the second from 22
// and the zone from 33.
use stamp::{NotRead, NotWritten};

// The bytes of a line.
pub const LINE: usize = 44;

// The listed numbers of a reading and of a writing that are refused.
const NOT_READ: u32 = 18;

const NOT_WRITTEN: u32 = 19;

// A decimal number of at most ten digits. A byte below them counts as 0.
fn number_in(digits: &[u8]) -> u32 {
    let n = digits.iter().fold(0u64, |n, byte| {
        n % 1000000000 * 10 + u64::from(byte.saturating_sub(b'0'))
    });
    (n % 4294967296) as u32
}

// A stamp, and what is to come of it; None where no answer has the numbers of the line.
#[derive(Clone, Copy)]
pub enum Case<'a> {
    Read {
        stamp: &'a [u8],
        expected: Option<Result<u32, NotRead>>,
    },
    Written {
        stamp: &'a [u8],
        second: u32,
        zone: u32,
        expected: Option<Result<(), NotWritten>>,
    },
}

impl<'a> Case<'a> {
    // The case that a line states, if it states one.
    pub fn of_line(line: &'a [u8]) -> Option<Case<'a>> {
        let stamp = line.get(2..18)?;
        let number = number_in(line.get(19..21)?);
        let second = number_in(line.get(22..32)?);
        let zone = number_in(line.get(33..43)?);
        match line.first()? {
            b'R' => Some(Case::Read {
                stamp,
                expected: match (number, second) {
                    (0, _) => Some(Ok(second)),
                    (NOT_READ, 0) => Some(Err(NotRead)),
                    _ => None,
                },
            }),
            b'W' => Some(Case::Written {
                stamp,
                second,
                zone,
                expected: match number {
                    0 => Some(Ok(())),
                    NOT_WRITTEN => Some(Err(NotWritten)),
                    _ => None,
                },
            }),
            _ => None,
        }
    }

    // Whether the stamp is read, or written into sixteen dots, as the line says.
    pub fn holds(&self) -> bool {
        match *self {
            Case::Read { stamp, expected } => Some(stamp::read_stamp(stamp)) == expected,
            Case::Written {
                stamp,
                second,
                zone,
                expected,
            } => {
                let mut slice = [b'.'; 16];
                Some(stamp::write_stamp(&mut slice, second, zone)) == expected
                    && &slice[..] == stamp
            }
        }
    }
}

// Writing into the dots is refused, and leaves them.
pub fn is_kept(dots: &mut [u8]) -> bool {
    stamp::write_stamp(dots, 230641200, 1) == Err(NotWritten) && dots.iter().all(|b| *b == b'.')
}
