//! The socket at which peers are waited for.
ghost use Rattle.std.specs.Prelude.{[], ◌≡◌, ◌↔◌, IsTrue, IfOk, IfErr, OnErr};
ghost use Rattle.std.specs.IoError.{raw_os_error};
ghost use Rattle.bt_check.specs.Fault.{device};
ghost use Rattle.bt_engine.specs.Leads.{LeadsTo};
ghost use Rattle.bt_sockets.specs.Listener.{IsServed};
ghost use Rattle.bt_sockets.specs.ListenerSteps.{IsNoListener};
ghost use Rattle.bt_sockets.specs.Stream.{AreNew};

use crate::passage::Passage;
use crate::stream::{StreamReader, StreamWriter, Terms, both_ways};
use crate::telling::tell_visit;
use crate::timing::Role;
use bt_check::Fault;
use bt_disk::Disk;
use bt_progress::Watch;
use bt_session::{Engine, Flushing, PeerEnd, meet_peer};
use bt_tree::NodeHash;
use std::alloc::Global;
use std::io::{self, ErrorKind, Read, Write};
use std::net::{Net, OpenListener, SocketAddr, TcpListener};
use std::thread;
use std::time::{Clock, Duration, Instant};

/// How many turns a session takes at most.
pub const SESSION_TURNS: u64 = 0x1_0000_0000;

/// How many times at most a connection that can't be taken is waited for, a minute and a half with the pauses in
/// between.
pub const ACCEPT_TRIES: u32 = 100;

/// How many milliseconds the first pause has, before another try to take a connection; each is twice as long as the one
/// before, up to `LONGEST_PAUSE_MILLIS`.
pub const FIRST_PAUSE_MILLIS: u64 = 10;

/// How many milliseconds a pause between two tries to take a connection has at most.
pub const LONGEST_PAUSE_MILLIS: u64 = 1000;

/// What accept(2) fails with where the socket is none that listens: EBADF, EINVAL and ENOTSOCK of Linux. EOPNOTSUPP may
/// be of the new connection too.
const BAD_DESCRIPTOR: i32 = 9;

const INVALID: i32 = 22;

const NO_SOCKET: i32 = 88;

/// Listens at a port of an address; at port 0 the system chooses one. Errors: the port can't be had.
pub fn listen<R: Net>(net: &R, address: &str, port: u16) -> Result<R::Listener, Fault>
    ensures { IfErr result (λ fault. fault ≡ device) }
{
    match TcpListener::bind(net, (address, port)) {
        Ok(listener) => Ok(listener),
        Err(_) => Err(Fault::Device),
    }
}

/// The port at which a listener listens. Errors: the system does not tell it.
pub fn port_of<L: OpenListener>(listener: &L) -> Result<u16, Fault>
    ensures { IfErr result (λ fault. fault ≡ device) }
{
    match listener.local_addr() {
        Ok(address) => Ok(address.port()),
        Err(_) => Err(Fault::Device),
    }
}

/// Whether an error says that a socket is none at which connections can be taken. After any other the next one
/// may be: its peer was gone already, or the system is out of descriptors or of memory for now.
pub fn is_no_listener(error: &io::Error) -> bool
    ensures { IsTrue result ↔ IsNoListener (raw_os_error error.now) }
{
    matches!(
        error.raw_os_error(),
        Some(BAD_DESCRIPTOR | INVALID | NO_SOCKET)
    )
}

/// Waits for a connection. One that can't be taken is left, and the next one waited for, `ACCEPT_TRIES` times at most.
/// Errors: the socket is none that listens; none could be taken.
fn accepted<L: OpenListener, C: Clock>(
    clock: &C,
    listener: &L,
) -> io::Result<(L::Stream, SocketAddr)> {
    let longest = Duration::from_millis(LONGEST_PAUSE_MILLIS);
    let mut pause = Duration::from_millis(FIRST_PAUSE_MILLIS);
    for _ in 0..ACCEPT_TRIES {
        match listener.accept() {
            Ok(connection) => return Ok(connection),
            Err(error) if is_no_listener(&error) => return Err(error),
            Err(_) => thread::sleep(clock, pause),
        }
        pause = pause.saturating_add(pause).min(longest);
    }
    Err(io::Error::from(ErrorKind::NotConnected))
}

/// Waits for a connection and serves it, as long as its peer is not idle for `idle`, and does not take too long
/// otherwise: Unreachable where it was gone already. Behind it is told who it was, how many bytes were sent to it, and
/// how long it was there. Errors: none could be taken, though it was tried again and again.
pub fn serve<'a, D: Disk + Drop, H: NodeHash, R: Net + Clock, P: Watch>(
    net: &'a R,
    alloc: Global,
    engine: &mut Engine<D, H>,
    listener: &R::Listener,
    idle: Duration,
    passage: Passage<'a>,
    watch: &P,
) -> Result<PeerEnd, Fault>
    requires no_peer { engine.old.state.peers ≡ [] }
    ensures served { IfOk result (λ end. IsServed D.conduct H.digest
        (AreNew passage.entry.short_blocks.now)
        ⟦<StreamReader<'a, R::Stream, R> as Read>⟧.remaining
        ⟦<StreamWriter<'a, R::Stream, R> as Write>⟧.contents SESSION_TURNS engine.old end
        engine.new) }
    ensures gone { engine.new.state.peers ≡ [] }
    ensures run { LeadsTo D.conduct H.digest engine.old engine.new }
    ensures refused { IfErr result (λ fault. fault ≡ device) }
    ensures kept { OnErr result (engine.new ≡ engine.old) }
{
    match accepted(net, listener) {
        Ok((stream, address)) => {
            let begun = Instant::now(net).ok();
            let terms = Terms {
                role: Role::Serve,
                idle,
            };
            let reached = both_ways(net, stream, terms, passage).ok();
            let never = Flushing::Never;
            let (end, _) = meet_peer(alloc, engine, reached, false, SESSION_TURNS, never);
            let sent = passage.shared.seat.sent.get();
            tell_visit(alloc, watch, net, address, sent, begun);
            Ok(end)
        }
        Err(_) => Err(Fault::Device),
    }
}
