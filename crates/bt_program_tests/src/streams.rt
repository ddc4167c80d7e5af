//! Readers and writers that fail, or give little.

use std::io::{self, ErrorKind, Read, Write};

/// The number of a read that never comes.
pub const NEVER: u32 = u32::MAX;

/// A reader of bytes that gives at most this many at a time, is interrupted before each read, and fails at one of them,
/// or where it has no more.
#[derive(Drop)]
pub struct Slow<'a> {
    pub bytes: &'a [u8],
    pub most: usize,
    pub reads: u32,
    pub fails_at: u32,
    pub fails_at_end: bool,
}

impl<'a> Slow<'a> {
    /// One that fails at no end.
    pub fn new(bytes: &'a [u8], most: usize, fails_at: u32) -> Slow<'a> {
        Slow {
            bytes,
            most,
            reads: 0,
            fails_at,
            fails_at_end: false,
        }
    }
}

impl Read for Slow<'_> {
    fn read(&mut self, buf: &mut [u8]) -> io::Result<usize> {
        if self.reads == self.fails_at {
            return Err(io::Error::from(ErrorKind::Other));
        }
        self.reads = self.reads.saturating_add(1);
        if self.reads % 2 == 1 {
            return Err(io::Error::from(ErrorKind::Interrupted));
        }
        let count = buf.len().min(self.most).min(self.bytes.len());
        // A device that says that it is out of memory has failed: no memory is refused here.
        if count == 0 && self.fails_at_end {
            return Err(io::Error::from(ErrorKind::OutOfMemory));
        }
        buf[..count].copy_from_slice(&self.bytes[..count]);
        self.bytes = &self.bytes[count..];
        Ok(count)
    }
}

/// A writer that takes all, and loses it when it is flushed.
#[derive(Clone, Copy)]
pub struct Lost;

impl Write for Lost {
    fn write(&mut self, buf: &[u8]) -> io::Result<usize> {
        Ok(buf.len())
    }

    fn flush(&mut self) -> io::Result<()> {
        Err(io::Error::from(ErrorKind::StorageFull))
    }
}
