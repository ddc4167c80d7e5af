//! What is known of the socket of a connection, from one round to the next.

ghost use Rattle.std.specs.Prelude.{◌≡◌, ◌≢◌, ◌↔◌, ◌⊎◌, ◌<◌, IsTrue, true, false};
ghost use Rattle.bt_sockets.specs.TimingSteps.{HavePassed};
ghost use Rattle.bt_gate.specs.Clock.{HasWork, IsDue};

use bt_swarm::HELD_BACK;
use std::time::{Duration, Instant};

/// How many seconds after its last read a connection is read again, though nothing is known to have come: so it is noticed
/// where its peer takes too long.
pub(crate) const LOOK_SECONDS: u64 = 1;

/// How many seconds after the last write a peer is to be told that the connection is there still. It may give up one from
/// which nothing comes for two minutes.
pub(crate) const SILENT_SECONDS: u64 = 100;

/// What is known of the socket of a connection. Readiness is told when it changes, so a socket is taken to be ready until
/// a call of it would have to wait.
#[derive(Clone, Copy)]
pub(crate) struct Marks {
    /// What the clock of the gate shows.
    pub(crate) time: Instant,
    /// When the connection was read last,
    read: Instant,
    /// and when something went out last.
    wrote: Instant,
    /// How many bytes wait to go out.
    waiting: usize,
    is_readable: bool,
    is_writable: bool,
    /// Whether the socket was full since something went out last.
    is_full: bool,
}

impl Marks {
    /// Of a connection that begins, which may be ready.
    pub(crate) fn new(now: Instant) -> Self
        ensures times { (result.time ≡ now) × (result.read ≡ now) × (result.wrote ≡ now) }
        ensures ready { (result.is_readable ≡ true) × (result.is_writable ≡ true) }
        ensures nothing { (result.waiting ≡ 0) × (result.is_full ≡ false) }
    {
        Marks {
            time: now,
            read: now,
            wrote: now,
            waiting: 0,
            is_readable: true,
            is_writable: true,
            is_full: false,
        }
    }

    /// The clock goes on.
    pub(crate) fn pass(&mut self, now: Instant)
        ensures { self.new ≡ record self.old { time = now } }
    {
        self.time = now;
    }

    /// The system tells what the socket is ready for.
    pub(crate) fn see(&mut self, readable: bool, writable: bool)
        ensures readable { IsTrue self.new.is_readable ↔ (IsTrue self.old.is_readable
            ⊎ IsTrue readable) }
        ensures writable { IsTrue self.new.is_writable ↔ (IsTrue self.old.is_writable
            ⊎ IsTrue writable) }
        ensures others { self.new ≡ record self.old
            { is_readable = self.new.is_readable; is_writable = self.new.is_writable } }
    {
        self.is_readable = self.is_readable || readable;
        self.is_writable = self.is_writable || writable;
    }

    /// The connection is read now.
    pub(crate) fn note_read(&mut self)
        ensures { self.new ≡ record self.old { read = self.old.time } }
    {
        self.read = self.time;
    }

    /// A read would have to wait.
    pub(crate) fn note_empty(&mut self)
        ensures { self.new ≡ record self.old { is_readable = false } }
    {
        self.is_readable = false;
    }

    /// Something goes out now. Says whether the socket was full before.
    pub(crate) fn note_write(&mut self) -> bool
        ensures was { result ≡ self.old.is_full }
        ensures now { self.new ≡ record self.old { wrote = self.old.time; is_full = false } }
    {
        let was_full = self.is_full;
        self.wrote = self.time;
        self.is_full = false;
        was_full
    }

    /// A write would have to wait. Says whether the socket was not full before.
    pub(crate) fn note_full(&mut self) -> bool
        ensures was { result ≢ self.old.is_full }
        ensures now { self.new ≡ record self.old { is_writable = false; is_full = true } }
    {
        let was_full = self.is_full;
        self.is_writable = false;
        self.is_full = true;
        !was_full
    }

    /// So many bytes wait to go out.
    pub(crate) fn note_waiting(&mut self, waiting: usize)
        ensures { self.new ≡ record self.old { waiting = waiting } }
    {
        self.waiting = waiting;
    }

    /// Whether the socket may be written to.
    pub(crate) fn is_writable(&self) -> bool
        ensures { result ≡ self.now.is_writable }
    {
        self.is_writable
    }

    /// Whether the connection is to be read: something may have come, or it was not read for a second.
    pub(crate) fn is_due(&self) -> bool
        ensures { IsTrue result ↔ IsDue self.now }
    {
        self.is_readable || self.time.duration_since(self.read) >= Duration::from_secs(LOOK_SECONDS)
    }

    /// Whether nothing went out for long.
    pub(crate) fn is_silent(&self) -> bool
        ensures { IsTrue result ↔ HavePassed SILENT_SECONDS self.now.wrote self.now.time }
    {
        self.time.duration_since(self.wrote) >= Duration::from_secs(SILENT_SECONDS)
    }

    /// Whether there is something to do that nobody tells of: a read that the connection is let make, or a write.
    pub(crate) fn has_work(&self) -> bool
        ensures { IsTrue result ↔ HasWork self.now }
    {
        self.is_readable && self.waiting < HELD_BACK || self.is_writable && self.waiting > 0
    }
}
