//! A socket at which nobody waits for ever.
ghost use Rattle.std.specs.Prelude.{◌≡◌, ◌↔◌, ◌⊎◌, ◌≤◌, ◌++◌, min, IsTrue, IfOk, OnErr, length, take};
ghost use Rattle.std.specs.Io.{ReadsAtMost, WritesAtMost};
ghost use Rattle.std.specs.Io.KnownBytes.{Keeps, ReadConsumes, WriteAppends};
ghost use Rattle.bt_connection.specs.Room.{IsTakenIn};
ghost use Rattle.bt_sockets.specs.TimedStreamSteps.{IsWritten};

use crate::parting::part;
use crate::remembered::{EARLY_LEN, EarlyRoom, Remembered};
use bt_connection::Lent;
use std::io::{self, ErrorKind, Read, Write};
use std::marker::Model;
use std::net::OpenStream;
use std::time::{Clock, Duration, Instant};

/// How many milliseconds a read waits at a time, before it is looked whether the peer has taken too long.
const READ_TURN_MILLIS: u64 = 1000;

/// How many milliseconds a write waits at a time, before what has come meanwhile is taken in.
const WRITE_TURN_MILLIS: u64 = 50;

/// How many milliseconds are waited for what has come meanwhile.
const LOOK_MILLIS: u64 = 1;

/// How many bytes that came early are taken in at a time.
const PART_LEN: usize = 16_384;

/// A handle of a connection's socket. It waits for the peer in turns, as long as the socket's time-outs are, and
/// looks in between whether the peer has taken too long. While the peer takes nothing, what comes of it is taken
/// in, as far as there is room, since it may wait for that to be taken. It is at its end where the peer has nothing
/// more to give (`Timed`). As it is let go, that of the reader takes leave of the peer (`part`), but of none that was
/// given up.
pub struct TimedStream<'a, S: Read + OpenStream + Drop, C: Clock> {
    inner: S,
    clock: &'a C,
    /// How long a peer may send nothing, or neither take nor send anything.
    idle: Duration,
    remembered: Remembered<'a>,
    way: Way,
}

/// What a handle of a socket is there for.
#[derive(Clone, Copy, Debug, PartialEq, Eq)]
pub(crate) enum Way {
    /// The connection is read.
    In,
    /// The connection is written to.
    Out,
}

impl<'a, S: Read + OpenStream + Drop, C: Clock> Model for TimedStream<'a, S, C> {
    ghost Value = { S };

    ghost view = { λ s. s.inner };
}

impl<'a, S: Read + OpenStream + Drop, C: Clock> TimedStream<'a, S, C> {
    /// A handle of the socket of the connection of which this is remembered.
    pub(crate) fn new(
        inner: S,
        clock: &'a C,
        idle: Duration,
        remembered: Remembered<'a>,
        way: Way,
    ) -> Self
        ensures { result ≡ inner }
    {
        TimedStream {
            inner,
            clock,
            idle,
            remembered,
            way,
        }
    }
}

impl<'a, S: Read + OpenStream + Drop, C: Clock> Drop for TimedStream<'a, S, C> {
    fn drop(mut self) {
        if self.way == Way::In && !self.remembered.timing.is_given_up() {
            let clock = self.clock;
            part(&mut self.inner, clock);
        }
        let TimedStream {
            inner: _inner,
            clock: _,
            idle: _,
            remembered: _,
            way: _,
        } = self;
    }
}

impl<'a, S: Read + OpenStream + Drop, C: Clock> TimedStream<'a, S, C> {
    /// Begins to wait. Errors: TimedOut where the peer has taken too long already; the clock fails.
    fn begin(&self) -> io::Result<Instant> {
        let now = Instant::now(self.clock)?;
        self.remembered.timing.look(now);
        if self.remembered.timing.is_late(now) {
            return Err(self.give_up());
        }
        Ok(now)
    }

    /// Waits on after a call of the socket that failed, as since then: says since when, since what is not counted
    /// against the peer is not waited for it. Errors: this one, where no such call is to be made again; TimedOut where
    /// the peer was idle for too long, or has taken too long otherwise; the clock fails.
    fn wait_on(&self, begun: Instant, error: io::Error) -> io::Result<Instant> {
        if !is_again(error.kind()) {
            return Err(error);
        }
        let now = Instant::now(self.clock)?;
        let begun = self.counted(begun, error.kind(), now);
        if self.remembered.timing.is_late(now) || now.duration_since(begun) >= self.idle {
            return Err(self.give_up());
        }
        Ok(begun)
    }

    /// Counts the time of a call of the socket that failed so, and says since when is waited. One that was interrupted
    /// may have been stopped, and counts as work does; in any other the socket was waited for.
    fn counted(&self, begun: Instant, kind: ErrorKind, now: Instant) -> Instant {
        let timing = self.remembered.timing;
        if kind != ErrorKind::Interrupted {
            timing.wait(now);
            return begun;
        }
        let begun = timing.resumed(begun, now);
        timing.look(now);
        begun
    }

    /// Gives the peer up, with this error.
    fn give_up(&self) -> io::Error {
        self.remembered.timing.give_up();
        io::Error::from(ErrorKind::TimedOut)
    }

    /// Notes that a call is over.
    fn leave(&self) {
        if let Ok(now) = Instant::now(self.clock) {
            self.remembered.timing.look(now);
        }
    }

    /// Notes that bytes have come.
    fn note_in(&self) {
        if let Ok(now) = Instant::now(self.clock) {
            self.remembered.timing.pass_in(read_turn(self.idle), now);
        }
    }

    /// Notes bytes that went out.
    fn note_out(&self, bytes: &[u8]) {
        let sent = self.remembered.sent;
        sent.set(sent.get().saturating_add(bytes.len() as u64));
        if let Ok(now) = Instant::now(self.clock) {
            self.remembered
                .timing
                .pass_out(bytes, write_turn(self.idle), now);
        }
    }

    /// Takes in what has come while the peer took nothing. Says since when is waited: since now, where something
    /// came, or else since then.
    fn take_in(&mut self, begun: Instant) -> Instant {
        let look = Duration::from_millis(LOOK_MILLIS);
        let _ = self.inner.set_read_timeout(Some(look));
        let taken = take_early(self.remembered.early, &mut self.inner);
        let _ = self.inner.set_read_timeout(Some(read_turn(self.idle)));
        let Ok(now) = Instant::now(self.clock) else {
            return begun;
        };
        match taken {
            Ok(0) => begun,
            Ok(_) => now,
            Err(error) => self.counted(begun, error.kind(), now),
        }
    }
}

/// How long a read waits at a time.
fn read_turn(idle: Duration) -> Duration {
    idle.min(Duration::from_millis(READ_TURN_MILLIS))
}

/// How long a write waits at a time.
fn write_turn(idle: Duration) -> Duration {
    idle.min(Duration::from_millis(WRITE_TURN_MILLIS))
}

/// Has a socket's calls wait for a turn at a time. Errors: the system refuses this, also where no time at all is
/// to be waited.
pub fn set_turns<S: OpenStream>(stream: &S, idle: Duration) -> io::Result<()> {
    stream.set_read_timeout(Some(read_turn(idle)))?;
    stream.set_write_timeout(Some(write_turn(idle)))
}

/// Takes in what has come, as far as there is room, and says how many bytes. Errors: those of the reader; what came
/// early is in use, which no call of this crate brings about.
fn take_early<S: Read>(early: Lent<'_, EarlyRoom>, from: &mut S) -> io::Result<usize> {
    let mut guard = early.try_borrow_mut()?;
    take_into(&mut *guard, from)
}

/// Reads once, as far as there is room, and says how many bytes came. Errors: those of the reader.
fn take_into<S: Read>(early: &mut EarlyRoom, from: &mut S) -> io::Result<usize>
    ensures came { IfOk result (λ count.
        IsTakenIn (S.remaining from.old) (S.remaining from.new) early.old count early.new) }
    ensures kept { OnErr result (Keeps (S.remaining from.old) (S.remaining from.new)) }
    ensures same { OnErr result (early.new ≡ early.old) }
{
    let most = EARLY_LEN - early.as_slice().len();
    early.read_from(from, most.min(PART_LEN))
}

/// Gives of what came early, and says how many bytes.
fn give_early(early: Lent<'_, EarlyRoom>, buffer: &mut [u8]) -> usize
    ensures { result ≤ length buffer.new }
{
    match early.try_borrow_mut() {
        Ok(mut guard) => give_from(&mut *guard, buffer),
        Err(_) => 0,
    }
}

/// Gives the first of them, as many as the buffer has room for, and says how many.
fn give_from(early: &mut EarlyRoom, buffer: &mut [u8]) -> usize
    ensures count { result ≡ min (length early.old) (length buffer.old) }
    ensures given { early.old ≡ take result buffer.new ++ early.new }
{
    let len = early.as_slice().len();
    early.give(len, buffer)
}

/// Whether a call of a socket is to be made again after this error: it was interrupted, or the socket's
/// time-out came.
pub(crate) fn is_again(kind: ErrorKind) -> bool
    ensures { IsTrue result ↔ ((kind ≡ ErrorKind.Interrupted)
        ⊎ (kind ≡ ErrorKind.WouldBlock) ⊎ (kind ≡ ErrorKind.TimedOut)) }
{
    matches!(
        kind,
        ErrorKind::Interrupted | ErrorKind::WouldBlock | ErrorKind::TimedOut
    )
}

// What comes early lies in a cell, so it is not known what is left to be read.
impl<'a, S: Read + OpenStream + Drop, C: Clock> Read for TimedStream<'a, S, C> {
    /// No byte is given, too, where the peer has nothing more to give. Errors, which come before that: those of the
    /// socket; the peer sent nothing for too long, or has taken too long otherwise; the clock fails.
    fn read(&mut self, buffer: &mut [u8]) -> io::Result<usize> {
        let result = self.read_in_time(buffer);
        self.leave();
        result
    }
}

impl<'a, S: Read + OpenStream + Drop, C: Clock> TimedStream<'a, S, C> {
    /// Reads, or gives what came early. Errors: as `read`.
    fn read_in_time(&mut self, buffer: &mut [u8]) -> io::Result<usize>
        ensures bound { ReadsAtMost result buffer.new }
    {
        let begun = self.begin()?;
        if self.remembered.timing.is_spent() {
            return Ok(0);
        }
        let count = give_early(self.remembered.early, buffer);
        if count > 0 {
            self.note_in();
            return Ok(count);
        }
        self.wait_for_bytes(buffer, begun)
    }

    /// Reads once something has come. Errors: as `read`.
    fn wait_for_bytes(&mut self, buffer: &mut [u8], mut begun: Instant) -> io::Result<usize>
        ensures bound { ReadsAtMost result buffer.new }
        ensures bytes { ReadConsumes (S.remaining self.old)
            (S.remaining self.new) result buffer.new }
    {
        // A bound, so that it ends whatever the system gives.
        'waiting: for _ in 0..u64::MAX {
            match self.inner.read(buffer) {
                Ok(count) => {
                    self.note_in();
                    return Ok(count);
                }
                Err(error) => begun = self.wait_on(begun, error)?,
            }
        }
        Err(io::Error::from(ErrorKind::TimedOut))
    }
}

// What the socket got before is not known, since it is read while it takes nothing.
impl<'a, S: Read + Write + OpenStream + Drop, C: Clock> Write for TimedStream<'a, S, C> {
    ghost use Rattle.std.specs.Prelude.{None};

    ghost contents = { λ _. None };

    /// Errors: those of the socket; the peer took and sent nothing for too long, or has taken too long
    /// otherwise; the clock fails.
    fn write(&mut self, bytes: &[u8]) -> io::Result<usize>
        ensures bound { WritesAtMost result bytes.now }
        ensures bytes { WriteAppends None None result bytes.now }
        ensures written { IfOk result (λ count. IsWritten S.contents bytes.now count self.new) }
    {
        let result = self.write_in_time(bytes);
        self.leave();
        result
    }

    fn flush(&mut self) -> io::Result<()> {
        self.inner.flush()
    }
}

impl<'a, S: Read + Write + OpenStream + Drop, C: Clock> TimedStream<'a, S, C> {
    /// Writes, and takes in what comes meanwhile. Errors: as `write`.
    fn write_in_time(&mut self, bytes: &[u8]) -> io::Result<usize>
        ensures bound { IfOk result (λ count. count ≤ length bytes.now) }
        ensures written { IfOk result (λ count. IsWritten S.contents bytes.now count self.new) }
    {
        let mut begun = self.begin()?;
        // A bound, so that it ends whatever the system gives.
        'waiting: for _ in 0..u64::MAX {
            match self.inner.write(bytes) {
                Ok(count) => {
                    self.note_out(&bytes[..count]);
                    return Ok(count);
                }
                Err(error) => begun = self.wait_on(begun, error)?,
            }
            begun = self.take_in(begun);
        }
        Err(io::Error::from(ErrorKind::TimedOut))
    }
}
