//! A door at which peers come by themselves.
ghost use Rattle.std.specs.Prelude.{◌≡◌, ◌<◌, false};
ghost use Rattle.bt_doors.specs.Doors.{HasClosed};

use crate::door::{Door, Visitor};
use bt_session::PeerEnd;
use bt_sockets::{ACCEPT_TRIES, FIRST_PAUSE_MILLIS, LONGEST_PAUSE_MILLIS, Role, is_no_listener};
use mio::Registry;
use std::io::ErrorKind;
use std::marker::Model;
use std::net::{Net, OpenListener};
use std::time::{Duration, Instant};

/// A socket at which connections are waited for. One that can't be taken is tried again, `ACCEPT_TRIES` times, after
/// pauses of 10 ms at first, and twice as long each time, up to a second.
#[derive(Drop)]
pub struct Listening<'a, N: Net> {
    listener: &'a N::Listener,
    /// How many connections get a place in all,
    most: u64,
    /// and how many did.
    taken: u64,
    /// Whether one may wait: the system tells when it is so, and it is until none could be taken.
    may_wait: bool,
    /// How many tries failed since the last connection,
    tries: u32,
    /// how long the next pause is,
    pause: Duration,
    /// and until when this one lasts.
    pause_end: Option<Instant>,
    /// Whether none can be taken any more, though not all were.
    has_failed: bool,
}

impl<'a, N: Net> Model for Listening<'a, N> {
    ghost use Rattle.std.specs.Prelude.{◌≤◌};
    ghost use Rattle.bt_doors.specs.Doors.{ListeningState};

    ghost Value = { ListeningState };

    ghost view = { λ l. record { most = l.most; taken = l.taken; has_failed = l.has_failed } };

    ghost invariant = { λ l. l.taken ≤ l.most };
}

impl<'a, N: Net> Listening<'a, N> {
    /// A listener of which nobody got a place, and `most` are to.
    pub fn new(listener: &'a N::Listener, most: u64) -> Self
        ensures { result ≡ record { most = most; taken = 0; has_failed = false } }
    {
        Listening {
            listener,
            most,
            taken: 0,
            may_wait: true,
            tries: 0,
            pause: Duration::from_millis(FIRST_PAUSE_MILLIS),
            pause_end: None,
            has_failed: false,
        }
    }

    /// Whether none can be taken any more, though not all were.
    pub fn has_failed(&self) -> bool
        ensures { result ≡ self.now.has_failed }
    {
        self.has_failed
    }

    /// Whether a connection is not to be taken yet, since the last try failed.
    fn is_paused(&self, now: Instant) -> bool {
        match self.pause_end {
            Some(end) => now < end,
            None => false,
        }
    }

    /// A connection was taken.
    fn count_success(&mut self)
        ensures { self.new ≡ self.old }
    {
        self.tries = 0;
        self.pause = Duration::from_millis(FIRST_PAUSE_MILLIS);
        self.pause_end = None;
    }

    /// A connection could not be taken.
    fn count_failure(&mut self, now: Instant)
        ensures { self.new ≡ record self.old { has_failed = self.new.has_failed } }
    {
        self.tries = self.tries.saturating_add(1);
        if self.tries >= ACCEPT_TRIES {
            self.has_failed = true;
        }
        self.pause_end = now.checked_add(self.pause);
        let longest = Duration::from_millis(LONGEST_PAUSE_MILLIS);
        self.pause = self.pause.saturating_add(self.pause).min(longest);
    }
}

impl<'a, N: Net> Door for Listening<'a, N> {
    type Stream = N::Stream;

    ghost is_shut = { HasClosed };

    ghost size = { λ _. 0 };

    ghost given = { λ l. l.taken };

    ghost may_give = { λ l. l.taken < l.most };

    fn role(&self) -> Role {
        Role::Serve
    }

    fn knock(&mut self) {
        self.may_wait = true;
    }

    fn go_on(&mut self, _registry: &Registry, _free: usize, _now: Instant) {}

    fn take(&mut self, now: Instant) -> Option<Visitor<N::Stream>> {
        if self.taken >= self.most || self.has_failed {
            return None;
        }
        if !self.may_wait || self.is_paused(now) {
            return None;
        }
        match self.listener.accept() {
            Ok((stream, address)) => {
                self.count_success();
                return Some(Visitor {
                    stream,
                    address,
                    number: 0,
                });
            }
            Err(error) if error.kind() == ErrorKind::WouldBlock => self.may_wait = false,
            Err(error) if is_no_listener(&error) => self.has_failed = true,
            Err(_) => self.count_failure(now),
        }
        None
    }

    fn rest(&self, free: usize) -> Duration {
        if self.may_wait && free > 0 && !self.is_over() {
            self.pause
        } else {
            Duration::from_secs(1)
        }
    }

    fn is_over(&self) -> bool {
        self.taken == self.most || self.has_failed
    }

    fn settle(&mut self) {
        self.taken += 1;
    }

    fn note(&mut self, _number: usize, _end: PeerEnd) {}
}
