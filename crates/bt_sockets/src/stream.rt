//! A connection.
ghost use Rattle.std.specs.Prelude.{◌≡◌, ◌≢◌, List, ℕ, All, IfOk, MatchOption};
ghost use Rattle.bt_sockets.specs.Stream.{AreNewWays};
ghost use Rattle.bt_sockets.specs.StreamSteps.{IsAddressOf, IsTextOf, bracketed};

use crate::passage::Passage;
use crate::remembered::Remembered;
use crate::timed_stream::{TimedStream, Way, set_turns};
use crate::timing::{Role, Timing};
use bt_connection::{AlarmReader, HoldingWriter, Padded, ReadAhead, SendingReader, Side};
use std::alloc::Global;
use std::io;
use std::io::{ErrorKind, Read, Write};
use std::net::{Ipv6Addr, Net, OpenStream, SocketAddr, TcpStream, ToSocketAddrs};
use std::time::{Clock, Duration, Instant};

/// How many seconds each address of a host has to answer.
pub const CONNECT_SECONDS: u64 = 20;

/// For how many seconds a peer may send nothing at all, or take nothing, before a program gives it up.
pub const IDLE_SECONDS: u64 = 120;

/// What is read from a connection, as its engine gets it.
pub type StreamReader<'a, S, C> = Padded<
    'a,
    ReadAhead<'a, AlarmReader<'a, SendingReader<'a, TimedStream<'a, S, C>>>, Timing>,
>;

/// What is written to a connection, as its peer gets it.
pub type StreamWriter<'a, S, C> = Padded<'a, HoldingWriter<'a, TimedStream<'a, S, C>>>;

/// Connects to the first address of a host that answers, and gives that address too. Errors: none does, and then the
/// kind is that of the last; or none is known, which is `Uncategorized`.
pub(crate) fn connected<R: Net>(
    net: &R,
    host: &str,
    port: u16,
) -> io::Result<(R::Stream, SocketAddr)>
    ensures { IfOk result (λ connection. IsAddressOf host.now port connection.1) }
{
    let limit = Duration::from_secs(CONNECT_SECONDS);
    let mut kind = ErrorKind::Uncategorized;
    for address in (text_of(host), port).to_socket_addrs(net)? {
        match TcpStream::connect_timeout(net, &address, limit) {
            Ok(stream) => return Ok((stream, address)),
            Err(error) => kind = refusal_kind(error.kind()),
        }
    }
    Err(io::Error::from(kind))
}

/// The addresses of a host, in the order in which they are dialled. Errors: none is known, which is `Uncategorized`; out
/// of memory.
pub fn addresses_of<R: Net>(
    alloc: Global,
    net: &R,
    host: &str,
    port: u16,
) -> io::Result<Vec<SocketAddr>>
    ensures { IfOk result (λ found. All (IsAddressOf host.now port) found.items) }
{
    let mut found = Vec::new(alloc);
    let known = (text_of(host), port).to_socket_addrs(net)?;
    for address in known {
        found.push(address)?;
    }
    Ok(found)
}

/// The kind of an error of an address that does not answer, which is none of a look-up.
pub fn refusal_kind(kind: ErrorKind) -> ErrorKind {
    match kind {
        ErrorKind::Uncategorized => ErrorKind::NotConnected,
        _ => kind,
    }
}

/// A host as it is looked up: without the brackets that stand around an IPv6 address.
fn text_of(host: &str) -> &str
    ensures { IsTextOf host.now result.now }
{
    match in_brackets(host) {
        Some(text) => match text.parse::<Ipv6Addr>() {
            Ok(_) => text,
            Err(_) => host,
        },
        None => host,
    }
}

/// What stands in a pair of brackets.
fn in_brackets(host: &str) -> Option<&str>
    ensures { MatchOption result ((text : List ℕ) → host.now ≢ bracketed text)
        (λ text. host.now ≡ bracketed text.now) }
{
    match host.strip_prefix('[') {
        Some(behind) => behind.strip_suffix(']'),
        None => None,
    }
}

/// What a connection is there for, and how long its peer may be idle.
#[derive(Clone, Copy)]
pub(crate) struct Terms {
    pub(crate) role: Role,
    pub(crate) idle: Duration,
}

/// Makes a connection ready for a session: what is read from it, ahead of its engine, and what is written to
/// it, which are one socket. Each write leaves at once, but for requests, which leave before the next read or
/// write. A read or a write fails where the peer was idle for `terms.idle`, or has taken too long otherwise; a read
/// also where a device has refused a write since. Both ways are new: nothing of another connection waits in them, or is
/// remembered. As the reader is let go, it takes leave of the peer. It takes no memory. Errors: the system refuses
/// this; a connection for the same passage is there still.
pub(crate) fn both_ways<'a, S: Read + Write + OpenStream + Drop, C: Clock>(
    clock: &'a C,
    stream: S,
    terms: Terms,
    passage: Passage<'a>,
) -> io::Result<(StreamReader<'a, S, C>, StreamWriter<'a, S, C>)>
    ensures { IfOk result (λ ways. AreNewWays passage.entry.short_blocks.now stream ways.0 ways.1) }
{
    let Passage {
        short_blocks,
        pieces,
        shared,
    } = passage;
    let room = shared.seat.room.try_borrow_mut()?;
    let incoming = shared.seat.incoming.try_borrow_mut()?;
    let outgoing = shared.seat.outgoing.try_borrow_mut()?;
    let remembered = Remembered::new(shared, terms.role, pieces, Instant::now(clock)?)?;
    stream.set_nodelay(true)?;
    set_turns(&stream, terms.idle)?;
    let clone = stream.try_clone()?;
    let Remembered {
        padding,
        requests,
        timing,
        ..
    } = remembered;
    let reading = TimedStream::new(stream, clock, terms.idle, remembered, Way::In);
    let sending = SendingReader::new(reading, requests);
    let heard = AlarmReader::new(sending, &shared.alarm);
    let ahead = ReadAhead::new(heard, &shared.digests, timing.observer(), room);
    let reader = Padded::new(Side::Peer, ahead, short_blocks, padding, incoming);
    let writing = TimedStream::new(clone, clock, terms.idle, remembered, Way::Out);
    let holding = HoldingWriter::new(writing, requests);
    let writer = Padded::new(Side::Engine, holding, short_blocks, padding, outgoing);
    Ok((reader, writer))
}
