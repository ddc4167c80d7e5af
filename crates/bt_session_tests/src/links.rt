//! Peers that are tried in turn.
ghost use Rattle.std.specs.Prelude.{◌≡◌, ◌≤◌, IfSome};

use crate::engine::TestEngine;
use bt_machine::FlushError;
use bt_rows::bytes_of;
use bt_session::{
    Flushing, Link, PeerEnd, SessionEnd, end_text, run_peers, run_peers_with_flushes,
};
use std::alloc::{AllocError, Global};
use std::fmt::Write;
use std::io::{self, Sink};

/// The most turns of a session with one of them.
const TURNS: u64 = 1 << 32;

/// A peer that sends these bytes, or is not reached.
#[derive(Drop)]
struct MemoryLink<'a> {
    bytes: Option<&'a [u8]>,
    dials: u64,
    failures: u64,
    ghost fewer: { failures ≤ dials },
}

impl<'a> MemoryLink<'a> {
    fn new(bytes: Option<&'a [u8]>) -> Self
        ensures { result.dials ≡ 0 }
    {
        MemoryLink {
            bytes,
            dials: 0,
            failures: 0,
        }
    }
}

impl<'a> Link for MemoryLink<'a> {
    type R = &'a [u8];

    type W = Sink;

    ghost dials = { λ link. link.dials };

    ghost failures = { λ link. link.failures };

    ghost gives = { λ link reader writer. IfSome link.bytes (λ bytes. reader.now ≡ bytes.now) };

    fn dial(&mut self) -> Option<(&'a [u8], Sink)> {
        self.dials += 1;
        match self.bytes {
            Some(bytes) => Some((bytes, io::sink())),
            None => {
                self.failures += 1;
                None
            }
        }
    }
}

/// Tries three peers: what came of each.
pub fn peers_row(
    alloc: Global,
    engine: &mut TestEngine,
    words: &str,
    out: &mut String,
) -> Result<(), AllocError> {
    let sent = sent_by(alloc, words)?;
    match try_three(alloc, engine, &sent) {
        Some(ends) => tell_ends(out, &ends),
        None => out.push_str("a peer is there\n"),
    }
}

/// Tries three peers, with flushes among turns and after each session: what came of each, and what the last flush
/// answered.
pub fn peers_with_flushes(
    alloc: Global,
    engine: &mut TestEngine,
    flushing: Flushing,
    words: &str,
    out: &mut String,
) -> Result<(), AllocError> {
    let sent = sent_by(alloc, words)?;
    if engine.peers() != 0 {
        return out.push_str("a peer is there\n");
    }
    let mut links = [link_at(&sent, 0), link_at(&sent, 1), link_at(&sent, 2)];
    let mut ends = [PeerEnd::Session(SessionEnd::Memory); 3];
    let flushed = run_peers_with_flushes(alloc, engine, &mut links, &mut ends, TURNS, flushing);
    tell_ends(out, &ends)?;
    tell_flushed(out, flushed)
}

/// What each peer sends; none where it is not reached.
fn sent_by(alloc: Global, words: &str) -> Result<Vec<Option<Vec<u8>>>, AllocError> {
    let mut sent = Vec::new(alloc);
    for word in words.split_whitespace() {
        sent.push(bytes_of(alloc, word)?)?;
    }
    Ok(sent)
}

fn try_three(
    alloc: Global,
    engine: &mut TestEngine,
    sent: &[Option<Vec<u8>>],
) -> Option<[PeerEnd; 3]> {
    if engine.peers() != 0 {
        return None;
    }
    let mut links = [link_at(sent, 0), link_at(sent, 1), link_at(sent, 2)];
    let mut ends = [PeerEnd::Session(SessionEnd::Memory); 3];
    run_peers(alloc, engine, &mut links, &mut ends, TURNS);
    Some(ends)
}

fn link_at(sent: &[Option<Vec<u8>>], index: usize) -> MemoryLink<'_>
    ensures { result.dials ≡ 0 }
{
    match sent.get(index) {
        Some(Some(bytes)) => MemoryLink::new(Some(bytes.as_slice())),
        _ => MemoryLink::new(None),
    }
}

fn tell_ends(out: &mut String, ends: &[PeerEnd]) -> Result<(), AllocError> {
    for end in ends {
        out.push_str(end_text(*end))?;
        out.push_str(";")?;
    }
    out.push_str("\n")
}

fn tell_flushed(out: &mut String, flushed: Result<(), FlushError>) -> Result<(), AllocError> {
    match flushed {
        Ok(()) => Ok(()),
        Err(error) => writeln!(out, "flush refused {error}"),
    }
}
