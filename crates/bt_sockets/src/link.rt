//! A peer that is reached over TCP.
ghost use Rattle.std.specs.Prelude.{◌≡◌, ◌+◌, ◌-◌, ◌<◌, ◌^◌, IfOk, IfSome};
ghost use Rattle.bt_session.specs.Link.{failure_count};
ghost use Rattle.bt_sockets.specs.Link.{LeadToSamePeer, undialled};
ghost use Rattle.bt_sockets.specs.Stream.{AreNew};
ghost use Rattle.bt_sockets.specs.StreamSteps.{IsAddressOf};

use crate::passage::Passage;
use crate::stream::{StreamReader, StreamWriter, Terms, both_ways, connected};
use crate::telling::{tell_dial, tell_failure};
use crate::timing::Role;
use bt_progress::Watch;
use bt_session::Link;
use std::alloc::Global;
use std::io;
use std::marker::Model;
use std::net::{Net, SocketAddr};
use std::time::{Clock, Duration};

/// A peer at a port of a host, which is a name or an address. That it is dialled is told, and why it is not reached.
#[derive(Drop)]
pub struct TcpLink<'a, R: Net + Clock, P: Watch> {
    alloc: Global,
    watch: &'a P,
    net: &'a R,
    host: &'a str,
    port: u16,
    idle: Duration,
    passage: Passage<'a>,
    dials: u64,
    failures: u64,
}

/// A connection to a peer: what is read from it, what is written to it, and the address that was dialled.
#[derive(Drop)]
struct Connection<I, O> {
    reader: I,
    writer: O,
    address: SocketAddr,
}

impl<'a, R: Net + Clock, P: Watch> Model for TcpLink<'a, R, P> {
    ghost use Rattle.std.specs.Prelude.{◌≤◌};
    ghost use Rattle.bt_sockets.specs.Link.{Dials};

    ghost Value = { Dials };

    ghost view = { λ a. record {
      host = a.host.now;
      port = a.port;
      short_blocks = a.passage.short_blocks.now;
      pieces = a.passage.pieces;
      all = a.dials;
      failed = a.failures;
    } };

    ghost invariant = { λ a. a.failures ≤ a.dials };
}

impl<'a, R: Net + Clock, P: Watch> TcpLink<'a, R, P> {
    /// A link that was not dialled yet. A peer that is idle for `idle` is given up; no time at all is refused at each
    /// dial. Links that are dialled in turn may share their passage. Neither a dial nor the connection that it gives takes
    /// memory, but for what the system takes to look up a host's name, without which the peer is not reached, and for what
    /// is told, where that is wanted.
    pub fn new(
        net: &'a R,
        host: &'a str,
        port: u16,
        idle: Duration,
        passage: Passage<'a>,
        alloc: Global,
        watch: &'a P,
    ) -> Self
        ensures { result ≡ undialled host.now port passage.entry.short_blocks.now
            passage.entry.pieces }
    {
        TcpLink {
            alloc,
            watch,
            net,
            host,
            port,
            idle,
            passage,
            dials: 0,
            failures: 0,
        }
    }

    /// Connects to the peer. Errors: it is not reached.
    fn connect(
        &self,
    ) -> io::Result<Connection<StreamReader<'a, R::Stream, R>, StreamWriter<'a, R::Stream, R>>>
        ensures address { IfOk result
            (λ connection. IsAddressOf self.now.host self.now.port connection.address) }
        ensures new { IfOk result
            (λ connection. AreNew self.now.short_blocks connection.reader connection.writer) }
    {
        let (stream, address) = connected(self.net, self.host, self.port)?;
        let terms = Terms {
            role: Role::Fetch,
            idle: self.idle,
        };
        let (reader, writer) = both_ways(self.net, stream, terms, self.passage)?;
        Ok(Connection {
            reader,
            writer,
            address,
        })
    }

    /// Dials the peer, and counts that: None where it is not reached.
    fn reach(
        &mut self,
    ) -> Option<Connection<StreamReader<'a, R::Stream, R>, StreamWriter<'a, R::Stream, R>>>
        requires few { self.old.all < 2 ^ 64 - 1 }
        ensures counted { self.new.all ≡ self.old.all + 1 }
        ensures failed { self.new.failed ≡ self.old.failed + failure_count result }
        ensures same_peer { LeadToSamePeer self.new self.old }
        ensures address { IfSome result
            (λ connection. IsAddressOf self.old.host self.old.port connection.address) }
        ensures new { IfSome result
            (λ connection. AreNew self.old.short_blocks connection.reader connection.writer) }
    {
        tell_dial(self.alloc, self.watch, self.host, self.port);
        let reached = self.connect();
        self.dials += 1;
        match reached {
            Ok(connection) => Some(connection),
            Err(error) => {
                self.failures += 1;
                tell_failure(self.alloc, self.watch, self.host, self.port, error.kind());
                None
            }
        }
    }
}

// Nothing is said of what a socket gives. Nothing has come of it yet where a dial gives it.
impl<'a, R: Net + Clock, P: Watch> Link for TcpLink<'a, R, P> {
    type R = StreamReader<'a, R::Stream, R>;

    type W = StreamWriter<'a, R::Stream, R>;

    ghost dials = { λ link. link.all };

    ghost failures = { λ link. link.failed };

    ghost gives = { λ link reader writer. AreNew link.short_blocks reader writer };

    fn dial(
        &mut self,
    ) -> Option<
        (
            StreamReader<'a, R::Stream, R>,
            StreamWriter<'a, R::Stream, R>,
        ),
    > {
        let Connection { reader, writer, .. } = self.reach()?;
        Some((reader, writer))
    }
}
