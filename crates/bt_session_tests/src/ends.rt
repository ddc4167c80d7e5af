//! The two ends of a connection to a peer, in memory.

use std::cell::RefCell;
use std::collections::VecDeque;
use std::io::{Read, Result, Write};

/// Bytes on their way.
pub type Queue = RefCell<VecDeque<u8>>;

/// What a peer sends; a read gives at most this many bytes.
#[derive(Drop)]
pub struct Source<'a> {
    pub queue: &'a Queue,
    pub most: usize,
}

impl Read for Source<'_> {
    fn read(&mut self, buffer: &mut [u8]) -> Result<usize> {
        let count = buffer.len().min(self.most);
        let mut guard = self.queue.try_borrow_mut()?;
        let queue = &mut *guard;
        queue.read(&mut buffer[..count])
    }
}

/// What is sent to a peer.
#[derive(Drop)]
pub struct Sink<'a> {
    pub queue: &'a Queue,
}

impl Write for Sink<'_> {
    fn write(&mut self, bytes: &[u8]) -> Result<usize> {
        let mut guard = self.queue.try_borrow_mut()?;
        let queue = &mut *guard;
        queue.write(bytes)
    }

    fn flush(&mut self) -> Result<()> {
        Ok(())
    }
}
