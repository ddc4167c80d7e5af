//! The two ends of a connection, as a row wants them.

use std::alloc::Global;
use std::io::{Error, ErrorKind, Read, Result, Write};

/// What a call of the reader finds.
#[derive(Drop)]
pub enum Reading {
    /// These bytes. Those that a call has no room for are there for the next.
    Bytes(Vec<u8>),
    Interrupted,
    Fault,
}

/// A reader that finds one thing after the other, and nothing after the last.
#[derive(Drop)]
pub struct TestReader {
    readings: Vec<Reading>,
    /// Which of them is next.
    next: usize,
    /// How many bytes of it were given.
    given: usize,
}

impl TestReader {
    pub fn new(readings: Vec<Reading>) -> Self {
        TestReader {
            readings,
            next: 0,
            given: 0,
        }
    }

    /// How many of the things were not found, or not wholly.
    pub fn left(&self) -> usize {
        self.readings.len().saturating_sub(self.next)
    }

    fn skip(&mut self) {
        self.next = self.next.saturating_add(1);
        self.given = 0;
    }
}

impl Read for TestReader {
    fn read(&mut self, buffer: &mut [u8]) -> Result<usize> {
        let bytes = match self.readings.get(self.next) {
            Some(Reading::Bytes(bytes)) => bytes,
            Some(Reading::Interrupted) => {
                self.skip();
                return Err(Error::from(ErrorKind::Interrupted));
            }
            Some(Reading::Fault) => {
                self.skip();
                return Err(Error::from(ErrorKind::ConnectionReset));
            }
            None => return Ok(0),
        };
        let rest = &bytes[self.given.min(bytes.len())..];
        let count = rest.len().min(buffer.len());
        buffer[..count].copy_from_slice(&rest[..count]);
        if count < rest.len() {
            self.given = self.given.saturating_add(count);
        } else {
            self.skip();
        }
        Ok(count)
    }
}

/// A writer that keeps what is written. One of its calls fails, by its number from 1 on, where there is one of that number.
#[derive(Drop)]
pub struct TestWriter {
    pub bytes: Vec<u8>,
    calls: u64,
    fault: u64,
}

impl TestWriter {
    pub fn new(alloc: Global, fault: u64) -> Self {
        TestWriter {
            bytes: Vec::new(alloc),
            calls: 0,
            fault,
        }
    }

    fn call(&mut self) -> Result<()> {
        self.calls = self.calls.saturating_add(1);
        if self.calls == self.fault {
            return Err(Error::from(ErrorKind::BrokenPipe));
        }
        Ok(())
    }
}

impl Write for TestWriter {
    fn write(&mut self, buffer: &[u8]) -> Result<usize> {
        self.call()?;
        self.bytes.extend_from_slice(buffer)?;
        Ok(buffer.len())
    }

    fn flush(&mut self) -> Result<()> {
        self.call()
    }
}
