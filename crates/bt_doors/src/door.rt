//! By which connections come to a gate.
ghost use Rattle.std.specs.Prelude.{◌≡◌, ℕ, ◌+◌, true, IfSome};

use bt_session::PeerEnd;
use bt_sockets::Role;
use mio::Registry;
use std::io::{Read, Write};
use std::net::{OpenStream, SocketAddr};
use std::os::fd::AsRawFd;
use std::time::{Duration, Instant};

/// A connection that comes, and has no place yet.
#[derive(Drop)]
pub struct Visitor<S> {
    pub stream: S,
    /// The peer's address.
    pub address: SocketAddr,
    /// By which its door knows it.
    pub number: usize,
}

/// By which connections come. No call of it waits, but for a name that is looked up.
pub trait Door: Drop {
    type Stream: Read + Write + OpenStream + AsRawFd + Drop;

    /// Nobody is to come any more.
    ghost is_shut: { Self → Type 0 };

    /// Of how many peers it says how it ended with them.
    ghost size: { Self → ℕ };

    /// How many of its connections got a place.
    ghost given: { Self → ℕ };

    /// One more may get a place.
    ghost may_give: { Self → Type 0 };

    /// What its connections are there for.
    fn role(&self) -> Role;

    /// The system tells that something may have come of what was asked of it.
    fn knock(&mut self)
        ensures size { size self.new ≡ size self.old }
        ensures given { given self.new ≡ given self.old };

    /// Goes on with what takes time, where so many places are free at the gate.
    fn go_on(&mut self, registry: &Registry, free: usize, now: Instant)
        ensures size { size self.new ≡ size self.old }
        ensures given { given self.new ≡ given self.old };

    /// Takes a connection that waits.
    fn take(&mut self, now: Instant) -> Option<Visitor<Self::Stream>>
        ensures size { size self.new ≡ size self.old }
        ensures given { given self.new ≡ given self.old }
        ensures room { IfSome result (λ _. may_give self.new) };

    /// The one that was taken last has a place.
    fn settle(&mut self)
        requires { may_give self.old }
        ensures size { size self.new ≡ size self.old }
        ensures given { given self.new ≡ given self.old + 1 };

    /// For how long it may be left alone, where so many places are free and the system tells nothing.
    fn rest(&self, free: usize) -> Duration;

    /// Whether nobody is to come any more.
    fn is_over(&self) -> bool
        ensures { result ≡ true → is_shut self.now };

    /// Notes how it ended with the peer of this number.
    fn note(&mut self, number: usize, end: PeerEnd)
        ensures size { size self.new ≡ size self.old }
        ensures given { given self.new ≡ given self.old }
        ensures shut { is_shut self.old → is_shut self.new };
}
