//! A network that stands in for the host's, in which a name has several addresses.

use bt_progress::Unwatched;
use bt_session::Link;
use bt_sockets::{IDLE_SECONDS, Passage, TcpLink, listen, port_of};
use std::alloc::Global;
use std::io::{self, ErrorKind};
use std::net::{Ipv4Addr, Net, OpenListener, SocketAddr};
use std::time::{Clock, Duration};

const HOST: &str = "127.0.0.1";

/// The host's network, in which each name has three addresses. Two of them refuse.
#[derive(Clone, Copy)]
struct Names<'a> {
    host: &'a HostRuntime,
    /// Which of the three answers, counted from 1; none where it is another number.
    open: u8,
}

/// An address of a name, counted from 1.
fn address(number: u8, port: u16) -> SocketAddr {
    SocketAddr::from((Ipv4Addr::new(127, 0, 0, number), port))
}

impl Net for Names<'_> {
    type Stream = <HostRuntime as Net>::Stream;

    type Listener = <HostRuntime as Net>::Listener;

    fn bind(&self, address: SocketAddr) -> io::Result<Self::Listener> {
        self.host.bind(address)
    }

    fn connect(&self, address: SocketAddr) -> io::Result<Self::Stream> {
        self.host.connect(address)
    }

    fn connect_timeout(&self, to: SocketAddr, limit: Duration) -> io::Result<Self::Stream> {
        let port = to.port();
        if to != address(self.open, port) {
            return Err(io::Error::from(ErrorKind::ConnectionRefused));
        }
        self.host.connect_timeout(address(1, port), limit)
    }

    fn lookup_host(&self, _host: &str, port: u16, found: &mut [SocketAddr]) -> io::Result<usize> {
        let all = [address(1, port), address(2, port), address(3, port)];
        let count = found.len().min(all.len());
        found[..count].copy_from_slice(&all[..count]);
        Ok(count)
    }
}

impl Clock for Names<'_> {
    fn monotonic(&self) -> io::Result<Duration> {
        self.host.monotonic()
    }

    fn since_1970(&self) -> io::Result<Duration> {
        self.host.since_1970()
    }
}

/// Whether a peer is reached by a name of three addresses, of which only this one answers, counted from 1.
pub fn is_name_reached(host: &HostRuntime, passage: Passage<'_>, open: u8) -> bool {
    match listen(host, HOST, 0) {
        Ok(listener) => is_reached(host.alloc(), &Names { host, open }, passage, &listener),
        Err(_) => false,
    }
}

fn is_reached<L: OpenListener>(
    alloc: Global,
    names: &Names<'_>,
    passage: Passage<'_>,
    listener: &L,
) -> bool {
    let Ok(port) = port_of(listener) else {
        return false;
    };
    let idle = Duration::from_secs(IDLE_SECONDS);
    let host = "peer.example";
    TcpLink::new(names, host, port, idle, passage, alloc, &Unwatched)
        .dial()
        .is_some()
}
