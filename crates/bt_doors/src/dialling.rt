//! A door by which peers are dialled.
ghost use Rattle.std.specs.Prelude.{◌≡◌, ◌-◌, ◌<◌, ◌^◌, length, IfOk, IfSome};
ghost use Rattle.bt_doors.specs.Doors.{undialled, HasDialledAll};

use crate::dial::{Dial, Progress};
use crate::door::{Door, Visitor};
use bt_progress::Watch;
use bt_session::PeerEnd;
use bt_sockets::{Role, tell_dial, tell_failure};
use mio::Registry;
use std::alloc::{AllocError, Global};
use std::io::ErrorKind;
use std::marker::Model;
use std::net::{Net, TcpStream};
use std::time::{Duration, Instant};

/// Peers that are dialled in their order, each once, as many at a time as there are places. A name's addresses are dialled
/// one after the other.
#[derive(Drop)]
pub struct Dialling<'a, N: Net, P: Watch> {
    alloc: Global,
    net: &'a N,
    watch: &'a P,
    /// The host of each, a name or an address, and its port.
    peers: &'a [(&'a str, u16)],
    /// Which one is dialled next.
    next: usize,
    /// Those that are dialled now, or were reached and have no place yet.
    dials: Vec<Dial>,
    /// How many of them got one.
    given: u64,
    /// Whether the system told that one of these may have answered.
    is_told: bool,
    /// How it ended with each.
    ends: Vec<PeerEnd>,
}

impl<'a, N: Net, P: Watch> Model for Dialling<'a, N, P> {
    ghost use Rattle.std.specs.Prelude.{length};
    ghost use Rattle.bt_doors.specs.Doors.{DiallingState};

    ghost Value = { DiallingState };

    ghost view = { λ d. record {
      peers = length d.peers.now;
      begun = d.next;
      pending = length d.dials.items;
      given = d.given;
      ends = d.ends.items;
    } };
}

impl<'a, N: Net, P: Watch> Dialling<'a, N, P> {
    /// Nobody is dialled yet. Errors: out of memory.
    pub fn new(
        alloc: Global,
        net: &'a N,
        watch: &'a P,
        peers: &'a [(&'a str, u16)],
    ) -> Result<Self, AllocError>
        ensures { IfOk result (λ door. door ≡ undialled (length peers.now)) }
    {
        let ends = vec![in alloc; PeerEnd::Untried; peers.len()]?;
        Ok(Dialling {
            alloc,
            net,
            watch,
            peers,
            next: 0,
            dials: Vec::new(alloc),
            given: 0,
            is_told: false,
            ends,
        })
    }

    /// How it ended with each peer, in their order.
    pub fn ends(&self) -> &[PeerEnd]
        ensures { result.now ≡ self.now.ends }
    {
        self.ends.as_slice()
    }

    /// Dials the next peer.
    fn dial_next(&mut self, registry: &Registry, now: Instant)
        ensures size { length self.new.ends ≡ length self.old.ends }
        ensures given { self.new.given ≡ self.old.given }
    {
        let number = self.next;
        let Some((host, port)) = self.peers.get(number).copied() else {
            return;
        };
        self.next = number.saturating_add(1);
        self.note(number, PeerEnd::Unreachable);
        tell_dial(self.alloc, self.watch, host, port);
        match Dial::begin(self.alloc, self.net, registry, number, host, port, now) {
            Ok(dial) => self.keep(dial),
            Err(error) => tell_failure(self.alloc, self.watch, host, port, error.kind()),
        }
    }

    /// Keeps one that is dialled. Without memory for it, it is not reached.
    fn keep(&mut self, dial: Dial)
        ensures ends { self.new.ends ≡ self.old.ends }
        ensures given { self.new.given ≡ self.old.given }
    {
        let _ = self.dials.push(dial);
    }

    /// Goes on with those that are dialled, and drops those that are not reached.
    fn go_on_with_each(&mut self, registry: &Registry, is_told: bool, now: Instant)
        ensures ends { self.new.ends ≡ self.old.ends }
        ensures given { self.new.given ≡ self.old.given }
    {
        for at in (0..self.dials.len()).rev() {
            if let Progress::Failed(kind) = self.progress_at(at, registry, is_told, now) {
                self.drop_at(at, kind);
            }
        }
    }

    /// Goes on with the one that stands here: how far it is.
    fn progress_at(
        &mut self,
        at: usize,
        registry: &Registry,
        is_told: bool,
        now: Instant,
    ) -> Progress
        ensures ends { self.new.ends ≡ self.old.ends }
        ensures given { self.new.given ≡ self.old.given }
    {
        match self.dials.get_mut(at) {
            Some(dial) => dial.go_on(self.net, registry, is_told, now),
            None => Progress::Waits,
        }
    }

    /// Drops the one that stands here, which is not reached, and tells why.
    fn drop_at(&mut self, at: usize, kind: ErrorKind)
        ensures ends { self.new.ends ≡ self.old.ends }
        ensures given { self.new.given ≡ self.old.given }
    {
        if at >= self.dials.len() {
            return;
        }
        let dial = self.dials.swap_remove(at);
        if let Some((host, port)) = self.peers.get(dial.number).copied() {
            tell_failure(self.alloc, self.watch, host, port, kind);
        }
    }

    /// Where one stands that was reached.
    fn reached(&self) -> Option<usize>
        ensures { IfSome result (λ at. at < self.now.pending) }
    {
        self.dials.iter().position(|dial| dial.is_reached())
    }
}

impl<'a, N: Net, P: Watch> Door for Dialling<'a, N, P> {
    type Stream = TcpStream;

    ghost is_shut = { HasDialledAll };

    ghost size = { λ d. length d.ends };

    ghost given = { λ d. d.given };

    ghost may_give = { λ d. d.given < 2 ^ 64 - 1 };

    fn role(&self) -> Role {
        Role::Fetch
    }

    fn knock(&mut self) {
        self.is_told = true;
    }

    fn go_on(&mut self, registry: &Registry, free: usize, now: Instant) {
        if self.dials.len() < free {
            self.dial_next(registry, now);
        }
        let is_told = self.is_told;
        self.is_told = false;
        self.go_on_with_each(registry, is_told, now);
    }

    fn take(&mut self, _now: Instant) -> Option<Visitor<TcpStream>> {
        if self.given == u64::MAX {
            return None;
        }
        let at = self.reached()?;
        let dial = self.dials.swap_remove(at);
        let number = dial.number;
        let (stream, address) = dial.into_stream();
        Some(Visitor {
            stream,
            address,
            number,
        })
    }

    fn rest(&self, free: usize) -> Duration {
        if self.next < self.peers.len() && self.dials.len() < free {
            Duration::ZERO
        } else {
            Duration::from_secs(1)
        }
    }

    fn is_over(&self) -> bool {
        self.next >= self.peers.len() && self.dials.is_empty()
    }

    fn settle(&mut self) {
        self.given += 1;
    }

    fn note(&mut self, number: usize, end: PeerEnd) {
        if let Some(slot) = self.ends.get_mut(number) {
            *slot = end;
        }
    }
}
