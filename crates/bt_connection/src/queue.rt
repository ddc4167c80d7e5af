//! Bytes that wait for a writer, which takes what it can at a time.
ghost use Rattle.std.specs.Prelude.{[], ◌≡◌, ◌≤◌, ◌++◌, true, length, IfOk, OnOk, OnErr};
ghost use Rattle.std.specs.Io.{WritesAtMost};
ghost use Rattle.std.specs.Io.KnownBytes.{Appends, Keeps, WriteAppends, append_known};
ghost use Rattle.bt_connection.specs.Queue.{most_waiting, IsDrained};

use std::alloc::Global;
use std::io::{self, ErrorKind, Write};
use std::marker::Model;

/// How many bytes may wait: 4 MiB.
const MOST_WAITING: usize = 4_194_304;

/// A writer that takes all that is written to it, up to 4 MiB, and passes it on as its inner writer takes it.
#[derive(Drop)]
pub struct Queue<W> {
    inner: W,
    bytes: Vec<u8>,
    /// How many of the bytes were passed on already.
    start: usize,
}

impl<W> Model for Queue<W> {
    ghost use Rattle.std.specs.Prelude.{◌≤◌, ◌+◌, drop, length};
    ghost use Rattle.bt_connection.specs.Queue.{most_waiting, Waiting};

    ghost Value = { Waiting W };

    ghost view = { λ q. record { inner = q.inner; bytes = drop q.start q.bytes.items } };

    ghost invariant = { λ q. (q.start ≤ length q.bytes.items)
        × (length q.bytes.items ≤ q.start + most_waiting) };
}

impl<W> Queue<W> {
    /// A queue in which nothing waits. It takes no memory.
    pub fn new(alloc: Global, inner: W) -> Self
        ensures { result ≡ record { inner = inner; bytes = [] } }
    {
        Queue {
            inner,
            bytes: Vec::new(alloc),
            start: 0,
        }
    }

    /// How many bytes wait, 4 MiB at most.
    pub fn waiting(&self) -> usize
        ensures count { result ≡ length self.now.bytes }
        ensures few { result ≤ most_waiting }
    {
        self.bytes.len() - self.start
    }

    /// Lets bytes wait behind the others, all of them or none. Errors: out of memory; more than 4 MiB would wait.
    pub fn put(&mut self, more: &[u8]) -> io::Result<()>
        ensures same_writer { self.new.inner ≡ self.old.inner }
        ensures behind { OnOk result (self.new.bytes ≡ self.old.bytes ++ more.now) }
        ensures kept { OnErr result (self.new.bytes ≡ self.old.bytes) }
    {
        if more.len() > MOST_WAITING - self.waiting() {
            return Err(io::Error::from(ErrorKind::QuotaExceeded));
        }
        self.make_room();
        match self.bytes.extend_from_slice(more) {
            Ok(()) => Ok(()),
            Err(_) => Err(io::Error::from(ErrorKind::OutOfMemory)),
        }
    }

    /// Drops the bytes that were passed on, once they are no fewer than those that wait: so no more bytes are moved
    /// than were passed on.
    fn make_room(&mut self)
        ensures { self.new ≡ self.old }
    {
        let waiting = self.bytes.len() - self.start;
        if self.start >= waiting {
            self.bytes.copy_within(self.start.., 0);
            self.bytes.truncate(waiting);
            self.start = 0;
        }
    }
}

impl<W: Write> Queue<W> {
    /// Passes on the first of the bytes that wait, as many as the inner writer takes by one write; gives whether none
    /// waits any more. Where the inner writer would have to wait, it takes none, and that is no error. Errors: those
    /// of the inner writer; `WriteZero` where it takes none though it could; and then nothing is passed on.
    pub fn drain(&mut self) -> io::Result<bool>
        ensures drained { IsDrained W.contents self.old self.new }
        ensures whole { IfOk result (λ whole. whole ≡ true → self.new.bytes ≡ []) }
        ensures kept { OnErr result (self.new.bytes ≡ self.old.bytes) }
    {
        if self.start == self.bytes.len() {
            return Ok(true);
        }
        match self.inner.write(&self.bytes[self.start..]) {
            Ok(0) => Err(io::Error::from(ErrorKind::WriteZero)),
            Ok(count) => {
                self.start += count;
                Ok(self.start == self.bytes.len())
            }
            Err(error) if matches!(error.kind(), ErrorKind::WouldBlock | ErrorKind::Interrupted) =>
                { Ok(false) }
            Err(error) => Err(error),
        }
    }
}

impl<W: Write> Write for Queue<W> {
    ghost contents = { λ q. append_known (W.contents q.inner) q.bytes };

    /// Lets all of the bytes wait. Errors: those of `put`, and then none of them waits.
    fn write(&mut self, bytes: &[u8]) -> io::Result<usize> {
        match self.put(bytes) {
            Ok(()) => Ok(bytes.len()),
            Err(error) => Err(error),
        }
    }

    /// Passes nothing on: only `drain` does.
    fn flush(&mut self) -> io::Result<()> {
        Ok(())
    }
}
