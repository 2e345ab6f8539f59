// Lines of the script: a verb, and the numbers after it.
use crate::report::Unfit;
use std::alloc::Global;

// At most so many numbers stand in one part of a line: a rule of the script, which its head states.
pub const MOST_NUMBERS: usize = 32;

// A line: its verb, and the numbers before a colon, those after it, and those after an equals sign.
#[derive(Drop)]
pub struct Line<'a> {
    pub verb: &'a str,
    pub fields: Vec<u32>,
    pub profile: Vec<u32>,
    pub expected: Vec<u32>,
}

impl<'a> Line<'a> {
    pub fn read(alloc: Global, text: &'a str) -> Result<Line<'a>, Unfit> {
        let (verb, numbers) = split(text, ' ');
        let (left, expected) = split(numbers, '=');
        let (fields, profile) = split(left, ':');
        Ok(Line {
            verb,
            fields: numbers_in(alloc, fields)?,
            profile: numbers_in(alloc, profile)?,
            expected: numbers_in(alloc, expected)?,
        })
    }
}

// Numbers of which there are to be so many.
pub fn exactly<const N: usize>(numbers: &[u32]) -> Result<[u32; N], Unfit> {
    <[u32; N]>::try_from(numbers).map_err(|_| Unfit::Unreadable)
}

// What stands before the first such character, and what after it: nothing where there is none.
fn split(text: &str, at: char) -> (&str, &str) {
    text.split_once(at).unwrap_or((text, ""))
}

// The decimal numbers of a text, between spaces. One too many is enough to see that there are too many.
fn numbers_in(alloc: Global, text: &str) -> Result<Vec<u32>, Unfit> {
    let numbers: Vec<u32> = text
        .split(' ')
        .filter(|word| !word.is_empty())
        .take(MOST_NUMBERS + 1)
        .map(number)
        .try_collect(alloc)?;
    if MOST_NUMBERS < numbers.len() {
        return Err(Unfit::Unreadable);
    }
    Ok(numbers)
}

// A decimal number: digits alone, with no sign before them.
fn number(word: &str) -> Result<u32, Unfit> {
    if !word.bytes().all(|byte| byte.is_ascii_digit()) {
        return Err(Unfit::Unreadable);
    }
    word.parse::<u32>().map_err(|_| Unfit::Unreadable)
}
