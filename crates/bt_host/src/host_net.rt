//! The system's network, as one that says why its calls fail.

use crate::host::Host;
use bt_progress::{Watch, system_reason};
use std::alloc::{AllocError, Global};
use std::io::{self, Write};
use std::net::{Net, SocketAddr, UdpSocket};
use std::os::fd::OwnedFd;
use std::os::unix::net::{SocketAddr as UnixAddr, UnixStream};
use std::time::{Clock, Duration};

impl<R: AllocGlobal, C: Clock, W: Write> Host<'_, R, C, W> {
    /// Notes why an address could not be had to listen at, or that it was; where it could not, this is told.
    fn tell_bind<T>(&self, addr: SocketAddr, answer: &io::Result<T>) {
        self.note(answer);
        if let Err(error) = answer
            && self.console.is_verbose()
        {
            if let Ok(text) = failure_text(self.rt.alloc(), addr, error) {
                self.console.tell(text.as_str());
            }
        }
    }
}

/// That an address could not be had to listen at, and why.
fn failure_text(alloc: Global, addr: SocketAddr, error: &io::Error) -> Result<String, AllocError> {
    match system_reason(error) {
        Some(reason) => format!(in alloc; "cannot listen at {addr}: {reason}"),
        None => format!(in alloc; "cannot listen at {addr}: {error}"),
    }
}

impl<R: Net + AllocGlobal, C: Clock, W: Write> Net for Host<'_, R, C, W> {
    type Stream = R::Stream;

    type Listener = R::Listener;

    fn bind(&self, addr: SocketAddr) -> io::Result<R::Listener> {
        let answer = self.rt.bind(addr);
        self.tell_bind(addr, &answer);
        answer
    }

    fn connect(&self, addr: SocketAddr) -> io::Result<R::Stream> {
        let answer = self.rt.connect(addr);
        self.note(&answer);
        answer
    }

    fn connect_timeout(&self, addr: SocketAddr, timeout: Duration) -> io::Result<R::Stream> {
        let answer = self.rt.connect_timeout(addr, timeout);
        self.note(&answer);
        answer
    }

    fn bind_udp(&self, addr: SocketAddr) -> io::Result<UdpSocket> {
        self.rt.bind_udp(addr)
    }

    fn lookup_host(&self, host: &str, port: u16, found: &mut [SocketAddr]) -> io::Result<usize> {
        let answer = self.rt.lookup_host(host, port, found);
        self.note(&answer);
        answer
    }

    fn connect_unix(&self, addr: &UnixAddr) -> io::Result<UnixStream> {
        self.rt.connect_unix(addr)
    }

    fn unix_pair(&self) -> io::Result<(UnixStream, UnixStream)> {
        self.rt.unix_pair()
    }

    fn unix_socket(&self) -> io::Result<OwnedFd> {
        self.rt.unix_socket()
    }
}
