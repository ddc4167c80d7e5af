//! A socket that is called once at a time, and never waits.
ghost use Rattle.std.specs.Prelude.{◌≡◌};
ghost use Rattle.std.specs.Io.{ReadsAtMost, WritesAtMost};
ghost use Rattle.std.specs.Io.KnownBytes.{ReadConsumes, WriteAppends};

use crate::marks::Marks;
use crate::seats::Place;
use bt_sockets::{IDLE_SECONDS, Timed};
use std::io::{self, ErrorKind, Read, Write};
use std::marker::Model;
use std::time::Instant;

/// A handle of a connection's socket. Each read or write is one call of it, which would rather fail than wait. It looks
/// before whether the peer has taken too long, and notes what passes, when, and whether the socket is ready still.
#[derive(Drop)]
pub struct ReadyStream<'a, S> {
    inner: S,
    place: &'a Place,
    timing: Timed<'a>,
}

impl<'a, S> Model for ReadyStream<'a, S> {
    ghost Value = { S };

    ghost view = { λ s. s.inner };
}

impl<'a, S> ReadyStream<'a, S> {
    /// A handle of the socket of the connection at this place.
    pub(crate) fn new(inner: S, place: &'a Place, timing: Timed<'a>) -> Self
        ensures { result ≡ inner }
    {
        ReadyStream {
            inner,
            place,
            timing,
        }
    }

    /// Looks at a peer before a call of its socket. Errors: it has taken too long, and is given up.
    fn look(&self, now: Instant) -> io::Result<()> {
        if self.timing.is_late(now) {
            return Err(self.give_up());
        }
        Ok(())
    }

    /// The error of a call that would have to wait: the peer is given up where nothing passed for too long.
    fn wait_on(&self, now: Instant) -> io::Error {
        if self.timing.is_idle(IDLE_SECONDS, now) {
            return self.give_up();
        }
        io::Error::from(ErrorKind::WouldBlock)
    }

    /// Gives the peer up, with this error.
    fn give_up(&self) -> io::Error {
        self.timing.give_up();
        io::Error::from(ErrorKind::TimedOut)
    }

    /// Notes bytes that go out now.
    fn note_out(&self, marks: &mut Marks, bytes: &[u8]) {
        self.place.count_sent(bytes.len());
        self.timing.note_out(bytes, marks.time);
        if marks.note_write() {
            // It takes again what it let wait.
            self.timing.note_in(marks.time);
        }
    }

    /// Notes that the socket takes nothing now.
    fn note_full(&self, marks: &mut Marks) {
        if marks.note_full() {
            // It took what came before.
            self.timing.note_in(marks.time);
        }
    }
}

impl<'a, S: Read> ReadyStream<'a, S> {
    /// Reads once, and notes what came of it. Errors: those of the socket; WouldBlock where nothing has come; TimedOut
    /// where nothing came for too long.
    fn read_now(&mut self, marks: &mut Marks, buffer: &mut [u8]) -> io::Result<usize>
        ensures bound { ReadsAtMost result buffer.new }
        ensures bytes { ReadConsumes (S.remaining self.old)
            (S.remaining self.new) result buffer.new }
    {
        match self.inner.read(buffer) {
            Ok(count) => {
                self.timing.note_in(marks.time);
                Ok(count)
            }
            Err(error) if error.kind() == ErrorKind::WouldBlock => {
                marks.note_empty();
                Err(self.wait_on(marks.time))
            }
            Err(error) => Err(error),
        }
    }
}

// At its end it may be before its socket is, so it is not known what is left to be read.
impl<'a, S: Read> Read for ReadyStream<'a, S> {
    /// No byte is given, too, where the peer has nothing more to give. Errors, which come before that: those of the
    /// socket; WouldBlock where nothing has come; TimedOut where the peer sent nothing for too long, or has taken too long
    /// otherwise; NotConnected where the connection has no place any more.
    fn read(&mut self, buffer: &mut [u8]) -> io::Result<usize> {
        let Some(mut marks) = self.place.marks() else {
            return Err(io::Error::from(ErrorKind::NotConnected));
        };
        marks.note_read();
        self.place.put_marks(marks);
        self.look(marks.time)?;
        if self.timing.is_spent() {
            return Ok(0);
        }
        let result = self.read_now(&mut marks, buffer);
        self.place.put_marks(marks);
        result
    }
}

impl<'a, S: Write> ReadyStream<'a, S> {
    /// Writes once, and notes what came of it. Errors: those of the socket; WouldBlock where it takes nothing.
    fn write_now(&mut self, marks: &mut Marks, bytes: &[u8]) -> io::Result<usize>
        ensures bound { WritesAtMost result bytes.now }
        ensures bytes { WriteAppends (S.contents self.old) (S.contents self.new) result bytes.now }
    {
        match self.inner.write(bytes) {
            Ok(count) => {
                self.note_out(marks, &bytes[..count]);
                Ok(count)
            }
            Err(error) => {
                if error.kind() == ErrorKind::WouldBlock {
                    self.note_full(marks);
                }
                Err(error)
            }
        }
    }
}

impl<'a, S: Write> Write for ReadyStream<'a, S> {
    ghost contents = { λ s. S.contents s };

    /// Errors: those of the socket; WouldBlock where it takes nothing now; TimedOut where the peer took and sent nothing
    /// for too long, or has taken too long otherwise; NotConnected where the connection has no place any more.
    fn write(&mut self, bytes: &[u8]) -> io::Result<usize> {
        let Some(mut marks) = self.place.marks() else {
            return Err(io::Error::from(ErrorKind::NotConnected));
        };
        self.look(marks.time)?;
        if !marks.is_writable() {
            return Err(self.wait_on(marks.time));
        }
        let result = self.write_now(&mut marks, bytes);
        self.place.put_marks(marks);
        result
    }

    fn flush(&mut self) -> io::Result<()> {
        self.inner.flush()
    }
}
