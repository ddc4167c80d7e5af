//! Calls that are made once more where memory is refused, for runs of which one allocation is: each answers then as if
//! none had been.

use crate::events::{tell_flushed, tell_report, tell_restarted};
use crate::peers::greeting_of;
use crate::stage::TestEngine;
use bt_book::PeerKey;
use bt_machine::{FlushError, Note, Output, RestartError};
use bt_rows::{RowError, Words, tell};
use std::alloc::Global;

/// A peer says no more parts.
const MAX_PARTS: u32 = 8;

pub fn again_row(
    alloc: Global,
    engine: &mut TestEngine,
    words: &mut Words,
    out: &mut String,
) -> Result<(), RowError> {
    match words.word() {
        "says" => says_row(alloc, engine, words, out),
        "flush" => tell_flushed(out, flushed_again(engine)),
        "restart" => tell_restarted(out, restarted_again(engine)),
        _ => Err(RowError::Unread),
    }
}

/// A device in memory that is refused memory fails.
fn flushed_again(engine: &mut TestEngine) -> Result<(), FlushError> {
    match engine.flush() {
        Ok(()) => Ok(()),
        Err(_) => engine.flush(),
    }
}

fn restarted_again(engine: &mut TestEngine) -> Result<(), RestartError> {
    match engine.restart() {
        Ok(()) => Ok(()),
        Err(_) => engine.restart(),
    }
}

/// A peer comes, and says one part after the other: how far the first file is behind each. Where a part is not taken
/// whole, the peer comes again, and says it once more.
fn says_row(
    alloc: Global,
    engine: &mut TestEngine,
    words: &mut Words,
    out: &mut String,
) -> Result<(), RowError> {
    let greeting = greeting_of(alloc, engine.torrent())?;
    let mut guest = None;
    for _ in 0..MAX_PARTS {
        if words.is_at_end() {
            break;
        }
        let part = words.bytes(alloc)?;
        guest = says_again(engine, guest, &greeting, &part);
        if !out.is_empty() {
            tell(out, "; ")?;
        }
        tell_report(engine, 0, out)?;
    }
    go(engine, guest)
}

fn says_again(
    engine: &mut TestEngine,
    guest: Option<PeerKey>,
    greeting: &[u8],
    part: &[u8],
) -> Option<PeerKey> {
    match says(engine, guest, greeting, part) {
        Some(peer) => Some(peer),
        None => says(engine, None, greeting, part),
    }
}

/// A peer, who comes where none is there, says a part. None where it is not taken whole: then the peer is gone.
fn says(
    engine: &mut TestEngine,
    guest: Option<PeerKey>,
    greeting: &[u8],
    part: &[u8],
) -> Option<PeerKey> {
    let peer = match guest {
        Some(peer) => peer,
        None => comes(engine, greeting)?,
    };
    stays(engine, peer, part)
}

/// A peer comes, says hello, has all pieces, and does not choke us. None where that is not taken whole: then it is gone.
fn comes(engine: &mut TestEngine, greeting: &[u8]) -> Option<PeerKey> {
    match engine.connect() {
        Ok((peer, _)) => stays(engine, peer, greeting),
        Err(_) => None,
    }
}

/// The peer, where the engine takes all that it says; else it goes.
fn stays(engine: &mut TestEngine, peer: PeerKey, bytes: &[u8]) -> Option<PeerKey> {
    if takes(engine, peer, bytes) {
        return Some(peer);
    }
    let _ = engine.lost(peer);
    None
}

/// Whether the engine takes all that a peer says, and writes what it brings.
fn takes(engine: &mut TestEngine, peer: PeerKey, bytes: &[u8]) -> bool {
    if engine.feed(peer, bytes).is_err() {
        return false;
    }
    let mut is_whole = true;
    for _ in 0..bytes.len() {
        match engine.next(peer) {
            Ok(Some(output)) => is_whole = is_whole && is_done(&output),
            Ok(None) => return is_whole,
            Err(_) => return false,
        }
    }
    false
}

/// Whether the peer stays, and no call of a device failed.
fn is_done(output: &Output) -> bool {
    output.close.is_none()
        && !output
            .notes
            .iter()
            .any(|note| matches!(note, Note::Device(_)))
}

/// The peer goes, where one is there.
fn go(engine: &mut TestEngine, guest: Option<PeerKey>) -> Result<(), RowError> {
    match guest {
        Some(peer) if engine.lost(peer).is_err() => Err(RowError::Unread),
        _ => Ok(()),
    }
}
