//! The words of a row.

use crate::bytes::{Hexadecimal, Spelling};
use bt_tree::{Geometry, Hash32};
use std::alloc::{AllocError, AllocFailed, Global};
use std::io;

/// Why a row has no answer.
#[derive(Drop)]
pub enum RowError {
    /// It is no row, or a word of it is not what stands there.
    Unread,
    /// A read or a write failed.
    Failed,
    /// There is no memory for it.
    Memory(AllocError),
}

impl From<AllocError> for RowError {
    fn from(error: AllocError) -> Self {
        RowError::Memory(error)
    }
}

impl<T: Drop> From<AllocFailed<T>> for RowError {
    fn from(_error: AllocFailed<T>) -> Self {
        RowError::Memory(AllocError)
    }
}

impl From<io::Error> for RowError {
    fn from(_error: io::Error) -> Self {
        RowError::Failed
    }
}

/// The words of a row that are not read yet.
#[derive(Clone, Copy)]
pub struct Words<'a> {
    rest: &'a str,
}

impl<'a> Words<'a> {
    /// All words of a row.
    pub fn new(row: &'a str) -> Self {
        Words { rest: row }
    }

    /// Whether no word is left.
    pub fn is_at_end(&self) -> bool {
        self.rest.is_empty()
    }

    /// The next word; an empty one at the end.
    pub fn word(&mut self) -> &'a str {
        let (word, rest) = self.rest.split_once(' ').unwrap_or((self.rest, ""));
        self.rest = rest;
        word
    }

    /// The number of up to 32 bits that the next word is. Errors: `Unread` where it is none.
    pub fn number(&mut self) -> Result<u32, RowError> {
        self.word().parse::<u32>().or(Err(RowError::Unread))
    }

    /// The number of up to 64 bits that the next word is. Errors: `Unread` where it is none.
    pub fn long(&mut self) -> Result<u64, RowError> {
        self.word().parse::<u64>().or(Err(RowError::Unread))
    }

    /// The shape of a file of as many bytes as the next word says. Errors: `Unread` where it says no number, or no
    /// file has as many.
    pub fn geometry(&mut self) -> Result<Geometry, RowError> {
        Geometry::new(self.long()?).ok_or(RowError::Unread)
    }

    /// The bytes that the next word spells. Errors: `Unread` where it spells none; out of memory.
    pub fn bytes(&mut self, alloc: Global) -> Result<Vec<u8>, RowError> {
        let word = self.word();
        match Hexadecimal.spelled(alloc, word)? {
            Some(bytes) => Ok(bytes),
            None => Err(RowError::Unread),
        }
    }

    /// The digest that the next word spells. Errors: `Unread` where it spells none; out of memory.
    pub fn digest(&mut self, alloc: Global) -> Result<Hash32, RowError> {
        let bytes = self.bytes(alloc)?;
        match bytes.as_chunks::<32>() {
            ([digest], []) => Ok(*digest),
            _ => Err(RowError::Unread),
        }
    }

    /// The digests that the next word spells, one after the other. Errors: `Unread` where it spells no whole ones; out
    /// of memory.
    pub fn digests(&mut self, alloc: Global) -> Result<Vec<Hash32>, RowError> {
        let bytes = self.bytes(alloc)?;
        let (digests, rest) = bytes.as_chunks::<32>();
        if !rest.is_empty() {
            return Err(RowError::Unread);
        }
        Ok(Vec::from_slice(alloc, digests)?)
    }
}
