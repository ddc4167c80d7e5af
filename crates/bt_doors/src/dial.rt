//! A peer that is dialled.

use bt_sockets::{CONNECT_SECONDS, addresses_of, refusal_kind};
use mio::net::TcpStream as Connecting;
use mio::{Interest, Registry, Token};
use std::alloc::Global;
use std::io::{self, ErrorKind};
use std::net::{Net, SocketAddr, TcpStream};
use std::time::{Duration, Instant};

/// By which the system tells of those that are dialled.
pub const DOOR: Token = Token(usize::MAX);

/// How far a dial is.
#[derive(Clone, Copy, Debug, PartialEq, Eq)]
pub(crate) enum Progress {
    /// The peer has not answered yet.
    Waits,
    /// There is a connection.
    Reached,
    /// No address answers, and why the last one did not.
    Failed(ErrorKind),
}

/// A peer that is dialled, by one of its addresses after the other, each for `CONNECT_SECONDS`.
#[derive(Drop)]
pub(crate) struct Dial {
    /// The number of the peer.
    pub(crate) number: usize,
    /// The addresses that are left, the next one last.
    left: Vec<SocketAddr>,
    /// The address that is dialled now,
    address: SocketAddr,
    stream: Connecting,
    /// and since when.
    begun: Instant,
    /// Whether there is a connection.
    is_reached: bool,
}

impl Dial {
    /// Begins to dial. The name is looked up, which may take a while. Errors: no address is known, or none can be dialled.
    pub(crate) fn begin<N: Net>(
        alloc: Global,
        net: &N,
        registry: &Registry,
        number: usize,
        host: &str,
        port: u16,
        now: Instant,
    ) -> io::Result<Dial> {
        let mut left = addresses_of(alloc, net, host, port)?;
        left.reverse();
        let (address, stream) = connect_to_any(net, registry, &mut left)?;
        Ok(Dial {
            number,
            left,
            address,
            stream,
            begun: now,
            is_reached: false,
        })
    }

    /// Whether there is a connection.
    pub(crate) fn is_reached(&self) -> bool {
        self.is_reached
    }

    /// Goes on: to the next address, where the one that is dialled fails or does not answer in time. The socket is asked
    /// where the system told that it may have something to say.
    pub(crate) fn go_on<N: Net>(
        &mut self,
        net: &N,
        registry: &Registry,
        is_told: bool,
        now: Instant,
    ) -> Progress {
        if self.is_reached {
            return Progress::Reached;
        }
        match self.progress(is_told, now) {
            Progress::Failed(kind) => self.dial_another(net, registry, kind, now),
            Progress::Reached => self.reach(registry),
            Progress::Waits => Progress::Waits,
        }
    }

    /// There is a connection, of which the system tells no more by this door. Where that is refused it has failed.
    fn reach(&mut self, registry: &Registry) -> Progress {
        match registry.deregister(&mut self.stream) {
            Ok(()) => {
                self.is_reached = true;
                Progress::Reached
            }
            Err(error) => Progress::Failed(error.kind()),
        }
    }

    /// How far the dial of this address is.
    fn progress(&self, is_told: bool, now: Instant) -> Progress {
        if is_told {
            match self.answer() {
                Progress::Waits => {}
                answer => return answer,
            }
        }
        if now.duration_since(self.begun) >= Duration::from_secs(CONNECT_SECONDS) {
            return Progress::Failed(ErrorKind::TimedOut);
        }
        Progress::Waits
    }

    /// What the socket says.
    fn answer(&self) -> Progress {
        match self.stream.take_error() {
            Ok(None) => {}
            Ok(Some(error)) | Err(error) => return Progress::Failed(error.kind()),
        }
        match self.stream.peer_addr() {
            Ok(_) => Progress::Reached,
            Err(_) => Progress::Waits,
        }
    }

    /// Dials the next address, where there is one: else the dial has failed so.
    fn dial_another<N: Net>(
        &mut self,
        net: &N,
        registry: &Registry,
        kind: ErrorKind,
        now: Instant,
    ) -> Progress {
        if self.left.is_empty() {
            return Progress::Failed(refusal_kind(kind));
        }
        match connect_to_any(net, registry, &mut self.left) {
            Ok((address, stream)) => {
                self.address = address;
                self.stream = stream;
                self.begun = now;
                Progress::Waits
            }
            Err(error) => Progress::Failed(refusal_kind(error.kind())),
        }
    }

    /// The connection, where the peer was reached, and its address.
    pub(crate) fn into_stream(self) -> (TcpStream, SocketAddr) {
        let Dial {
            stream,
            address,
            ..
        } = self;
        (TcpStream::from(stream), address)
    }
}

/// Begins to connect to the last of these addresses that can be dialled, and takes it and those after it away. Errors: none
/// can, and then it is that of the first.
fn connect_to_any<N: Net>(
    net: &N,
    registry: &Registry,
    left: &mut Vec<SocketAddr>,
) -> io::Result<(SocketAddr, Connecting)> {
    let mut last = io::Error::from(ErrorKind::Uncategorized);
    for _ in 0..left.len() {
        let Some(address) = left.pop() else {
            break;
        };
        match connect_to(net, registry, address) {
            Ok(stream) => return Ok((address, stream)),
            Err(error) => last = error,
        }
    }
    Err(last)
}

/// Begins to connect to an address. Errors: those of the system.
fn connect_to<N: Net>(net: &N, registry: &Registry, address: SocketAddr) -> io::Result<Connecting> {
    let mut stream = Connecting::connect(net, address)?;
    registry.register(&mut stream, DOOR, Interest::READABLE | Interest::WRITABLE)?;
    Ok(stream)
}
