//! The reader and the writer of a connection, as its engine has them: they translate what clients that pad short
//! blocks say.
ghost use Rattle.std.specs.Prelude.{[], ◌≡◌, ◌≢◌, ◌≤◌, true, None, length, IfOk, IfErr, IfSome, IfNone, OnErr};
ghost use Rattle.std.specs.Io.{ReadsAtMost, WritesAtMost};
ghost use Rattle.std.specs.Io.KnownBytes.{Keeps, ReadConsumes, WriteAppends};
ghost use Rattle.std.specs.IoError.{error_kind};
ghost use Rattle.bt_connection.specs.Padded.{new_padded, IsRead, KeepsWhatCame, IsWritten, IsFlushed, LosesNothing};
ghost use Rattle.bt_connection.specs.Queue.{most_waiting, IsDrained};
ghost use Rattle.bt_connection.specs.ReadAhead.{reader_remaining};

use crate::lent::Lent;
use crate::observer::Observer;
use crate::padding::Padding;
use crate::queue::Queue;
use crate::read_ahead::ReadAhead;
use crate::short_blocks::ShortBlocks;
use crate::translation::{Direction, FrameRoom, Side};
use bt_wire::HANDSHAKE_LEN;
use std::cell::RefMut;
use std::io::{self, ErrorKind, Read, Write};
use std::marker::Model;

/// Over a reader of what a peer sends (`Side::Peer`), a reader of what the engine gets in its place; over a writer to
/// that peer (`Side::Engine`), a writer of what the engine sends. The two share what is remembered of the peer.
///
/// A message that may be translated is given on once it is whole, or not at all. Any other message is given on as it
/// comes, but for its first bytes, which wait until the message's kind is known. No memory is taken: what waits has
/// its room.
#[derive(Drop)]
pub struct Padded<'a, T> {
    inner: T,
    direction: Direction<'a>,
}

impl<'a, T> Model for Padded<'a, T> {
    ghost use Rattle.bt_connection.specs.Padded.{PaddedState, padded_state};

    ghost Value = { PaddedState T };

    ghost view = { λ p. padded_state p.inner p.direction };
}

impl<'a, T> Padded<'a, T> {
    /// A reader or a writer at the beginning of a connection. What lies in `room` is forgotten.
    pub fn new(
        side: Side,
        inner: T,
        blocks: &'a ShortBlocks,
        padding: Lent<'a, Padding>,
        mut room: RefMut<'a, FrameRoom>,
    ) -> Self
        ensures { result ≡ new_padded side inner blocks.now }
    {
        room.clear();
        let direction = Direction {
            side,
            blocks,
            padding,
            room,
            ready: 0,
            passing: HANDSHAKE_LEN,
        };
        Padded { inner, direction }
    }
}

impl<'a, R: Read> Padded<'a, R> {
    /// Reads until something waits to be given, or to the end, and looks at each message on the way. Errors: as
    /// `read`.
    fn read_each(&mut self, buffer: &mut [u8]) -> io::Result<usize>
        ensures bound { ReadsAtMost result buffer.new }
        ensures given { IfOk result
            (λ count. IsRead R.remaining self.old count buffer.new self.new) }
        ensures again { OnErr result (KeepsWhatCame R.remaining self.old self.new) }
    {
        // A bound, so that it ends whatever the system gives.
        for _ in 0..u64::MAX {
            if self.direction.is_ready() || self.direction.collect(&mut self.inner)? == 0 {
                return Ok(self.direction.give(buffer));
            }
        }
        Err(io::Error::from(ErrorKind::TimedOut))
    }
}

impl<'a, R: Read, O: Observer> Padded<'a, ReadAhead<'a, R, O>> {
    /// Gives bytes of a message that is longer than a request, where the inner reader knows that one comes next, and
    /// gives how many; Some(0) where that reader is at its end. None where something else comes next, or it is not
    /// known what. Errors: those of the inner reader.
    fn read_long(&mut self, buffer: &mut [u8]) -> io::Result<Option<usize>>
        ensures bound { IfOk result (λ found. IfSome found (λ count. count ≤ length buffer.new)) }
        ensures given { IfOk result (λ found. IfSome found (λ count.
            IsRead (reader_remaining R.remaining) self.old count buffer.new self.new)) }
        ensures none { IfOk result (λ found. IfNone found
            (LosesNothing (reader_remaining R.remaining) self.old self.new)) }
        ensures kept { OnErr result
            (LosesNothing (reader_remaining R.remaining) self.old self.new) }
    {
        if buffer.is_empty() || !self.direction.is_between() {
            return Ok(None);
        }
        self.inner.fill()?;
        if !self.inner.is_ready() {
            return Ok(Some(0));
        }
        let count = self.direction.pass_long(&mut self.inner, buffer);
        if count == 0 {
            return Ok(None);
        }
        Ok(Some(count))
    }
}

// What is to come depends on what is remembered by then, so it is not known.
impl<'a, R: Read, O: Observer> Read for Padded<'a, ReadAhead<'a, R, O>> {
    /// Reads until something waits to be given, or to the end. Errors: those of the inner reader. After an error the
    /// read may be made again, and nothing is lost.
    fn read(&mut self, buffer: &mut [u8]) -> io::Result<usize>
        ensures bound { ReadsAtMost result buffer.new }
        ensures bytes { ReadConsumes None None result buffer.new }
        ensures given { IfOk result (λ count.
            IsRead (reader_remaining R.remaining) self.old count buffer.new self.new) }
        ensures again { OnErr result
            (KeepsWhatCame (reader_remaining R.remaining) self.old self.new) }
    {
        match self.read_long(buffer)? {
            Some(count) => Ok(count),
            None => self.read_each(buffer),
        }
    }
}

impl<'a, W: Write> Padded<'a, W> {
    /// Takes some of the bytes, and writes what stands for them to the inner writer. Errors: those of `write`, of any
    /// kind.
    fn give_on(&mut self, bytes: &[u8]) -> io::Result<usize>
        ensures { IfOk result (λ count. IsWritten W.contents self.old bytes.now count self.new) }
    {
        if self.direction.is_ready() {
            // Only where it is a reader.
            return Err(io::Error::from(ErrorKind::BrokenPipe));
        }
        let mut rest = bytes;
        let count = self.direction.collect(&mut rest)?;
        self.direction.send(&mut self.inner)?;
        Ok(count)
    }
}

// What the inner writer holds depends on what is remembered, so it is not known of this one.
impl<'a, W: Write> Write for Padded<'a, W> {
    /// Takes some of the bytes, up to the end of a message at most, and writes what stands for them to the inner
    /// writer. Errors: `OutOfMemory` where the inner writer failed so, `BrokenPipe` where it failed otherwise. Some
    /// of the bytes may have been taken all the same, so a caller must not try again.
    fn write(&mut self, bytes: &[u8]) -> io::Result<usize>
        ensures bound { WritesAtMost result bytes.now }
        ensures bytes { WriteAppends None None result bytes.now }
        ensures written { IfOk result
            (λ count. IsWritten W.contents self.old bytes.now count self.new) }
        ensures not_again { IfErr result (λ error. error_kind error ≢ ErrorKind.Interrupted) }
    {
        match self.give_on(bytes) {
            Ok(count) => Ok(count),
            Err(error) if error.kind() == ErrorKind::OutOfMemory => {
                Err(io::Error::from(ErrorKind::OutOfMemory))
            }
            Err(_) => Err(io::Error::from(ErrorKind::BrokenPipe)),
        }
    }

    fn flush(&mut self) -> io::Result<()>
        ensures bytes { Keeps None None }
        ensures flushed { IsFlushed W.contents self.old self.new }
    {
        self.inner.flush()
    }
}

impl<'a, W> Padded<'a, Queue<W>> {
    /// How many bytes wait in the queue, 4 MiB at most.
    pub fn waiting(&self) -> usize
        ensures count { result ≡ length self.now.inner.bytes }
        ensures few { result ≤ most_waiting }
    {
        self.inner.waiting()
    }
}

impl<'a, W: Write> Padded<'a, Queue<W>> {
    /// Passes on the first of the bytes that wait in the queue, as many as the queue's writer takes by one write;
    /// gives whether none waits any more. Errors: those of the queue.
    pub fn drain(&mut self) -> io::Result<bool>
        ensures drained { IsDrained W.contents self.old.inner self.new.inner }
        ensures whole { IfOk result (λ whole. whole ≡ true → self.new.inner.bytes ≡ []) }
        ensures kept { OnErr result (self.new.inner.bytes ≡ self.old.inner.bytes) }
        ensures others { self.new ≡ record self.old { inner = self.new.inner } }
    {
        self.inner.drain()
    }
}
