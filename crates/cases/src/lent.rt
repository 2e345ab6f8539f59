// Words that are lent to the ledger's calls, and the copy that they are compared with afterwards.
ghost use Rattle.std.specs.Prelude.{◌≡◌, ◌≤◌, length, vec_len};

use std::alloc::{AllocError, Global};

// Place for the most words that are ever lent. The first of them are lent; those past them stay as they are until they
// are lent again. The copy has each word as it was before the last action that it was lent to, and 0 before any.
#[derive(Drop)]
pub struct Lent {
    words: Vec<u32>,
    copy: Vec<u32>,
    lent: usize,
    ghost lent_there: { lent ≤ vec_len words },
    ghost copy_whole: { vec_len copy ≡ vec_len words },
}

impl Lent {
    // Place for so many words, all 0. None is lent as yet.
    pub fn new(alloc: Global, most: usize) -> Result<Lent, AllocError> {
        Ok(Lent {
            words: vec![in alloc; 0; most]?,
            copy: vec![in alloc; 0; most]?,
            lent: 0,
        })
    }

    // So many words are lent from here on. None where there is no place for them: what is lent stays.
    pub fn lend(&mut self, count: u32) -> Option<&mut [u32]> {
        let count = count as usize;
        if self.words.len() < count {
            return None;
        }
        self.lent = count;
        Some(self.words_mut())
    }

    pub fn words(&self) -> &[u32] {
        &self.words[..self.lent]
    }

    pub fn words_mut(&mut self) -> &mut [u32] {
        let lent = self.lent;
        &mut self.words[..lent]
    }

    // What the copy has of the words that are lent.
    fn copy(&self) -> &[u32] {
        &self.copy[..self.lent]
    }

    // The copy becomes the words as they are.
    pub fn keep_copy(&mut self) {
        put(&mut self.copy, &self.words[..self.lent]);
    }

    pub fn is_unaltered(&self) -> bool {
        self.words() == self.copy()
    }

    // How many words differ from the copy.
    pub fn altered(&self) -> u32 {
        let pairs = self.words().iter().zip(self.copy());
        pairs.fold(0u32, |count, (word, before)| {
            count.wrapping_add(u32::from(word != before))
        })
    }
}

// The first words become others.
fn put(words: &mut [u32], others: &[u32])
    requires { length others.now ≤ length words.old }
{
    words[..others.len()].copy_from_slice(others);
}
