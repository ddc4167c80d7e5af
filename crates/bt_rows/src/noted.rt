//! The words of a row in a program that goes on where one is wrong, and notes it. So the functions of its
//! rows have fewer ways out, which makes their proofs cheaper.

use crate::bytes::Spelling;
use crate::words::Words;
use bt_tree::Hash32;
use std::alloc::{AllocError, Global};

/// The words of a row that are not read yet, and whether one was not what stands there.
#[derive(Drop)]
pub struct NotedWords<'a, S> {
    words: Words<'a>,
    spelling: &'a S,
    wrong: bool,
}

impl<'a, S: Spelling> NotedWords<'a, S> {
    /// All words of a row, whose bytes are spelled as `spelling` says.
    pub fn new(spelling: &'a S, row: &'a str) -> Self {
        NotedWords {
            words: Words::new(row),
            spelling,
            wrong: false,
        }
    }

    /// Whether no word is left.
    pub fn is_at_end(&self) -> bool {
        self.words.is_at_end()
    }

    /// Whether each word was read, and none is left.
    pub fn are_read(&self) -> bool {
        self.words.is_at_end() && !self.wrong
    }

    /// The next word; an empty one at the end.
    pub fn word(&mut self) -> &'a str {
        self.words.word()
    }

    /// Notes that the word read last is not what stands there.
    pub fn are_wrong(&mut self) {
        self.wrong = true;
    }

    /// What was read; where nothing was, the other value, and the word is wrong.
    fn noted<T: Drop>(&mut self, read: Option<T>, other: T) -> T {
        match read {
            Some(value) => value,
            None => {
                self.wrong = true;
                other
            }
        }
    }

    /// The number of up to 32 bits that the next word is; 0 where it is none.
    pub fn number(&mut self) -> u32 {
        let number = self.words.number().ok();
        self.noted(number, 0)
    }

    /// The number of up to 64 bits that the next word is; 0 where it is none.
    pub fn long(&mut self) -> u64 {
        let number = self.words.long().ok();
        self.noted(number, 0)
    }

    /// The bytes that the next word spells; none where it is wrong. Errors: out of memory.
    pub fn bytes(&mut self, alloc: Global) -> Result<Vec<u8>, AllocError> {
        let word = self.words.word();
        let bytes = self.spelling.spelled(alloc, word)?;
        Ok(self.noted(bytes, Vec::new(alloc)))
    }

    /// The N bytes that the next word spells; zeros where it spells another number of them. Errors: out of memory.
    pub fn array<const N: usize>(&mut self, alloc: Global) -> Result<[u8; N], AllocError> {
        let bytes = self.bytes(alloc)?;
        Ok(self.noted(array_of(&bytes), [0; N]))
    }

    /// The digests that the next word spells, one after the other. Errors: out of memory.
    pub fn digests(&mut self, alloc: Global) -> Result<Vec<Hash32>, AllocError> {
        let bytes = self.bytes(alloc)?;
        let (digests, rest) = bytes.as_chunks::<32>();
        if !rest.is_empty() {
            self.wrong = true;
        }
        Vec::from_slice(alloc, digests)
    }
}

/// These bytes, where they are as many as are wanted.
fn array_of<const N: usize>(bytes: &[u8]) -> Option<[u8; N]> {
    if bytes.len() != N {
        return None;
    }
    let mut array = [0; N];
    array.copy_from_slice(bytes);
    Some(array)
}
