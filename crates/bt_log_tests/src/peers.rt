//! Peers: what each says, as the bytes of the wire that an engine is fed with, and what came of it.

use crate::notes::tell_output;
use crate::stage::TestEngine;
use bt_book::PeerKey;
use bt_hashreq::HashKey;
use bt_machine::{EngineError, Frame};
use bt_meta::Torrent;
use bt_rows::{RowError, Words, tell};
use bt_tree::BLOCK_LEN;
use bt_wire::{Bytes, Handshake, Message, fits, write_handshake, write_message};
use std::alloc::{AllocError, Global};
use std::fmt::Write;

/// A peer comes. It says hello, has all pieces, and does not choke us.
pub fn connect_row(
    alloc: Global,
    engine: &mut TestEngine,
    out: &mut String,
) -> Result<(), RowError> {
    let greeting = greeting_of(alloc, engine.torrent())?;
    match engine.connect() {
        Ok((peer, _)) => greet(engine, peer, &greeting, out),
        Err(cause) => Ok(write!(out, "refused {cause}")?),
    }
}

/// What such a peer says as it comes.
pub fn greeting_of(alloc: Global, torrent: &Torrent) -> Result<Vec<u8>, RowError> {
    let bits = vec![in alloc; 255; torrent.pieces().div_ceil(8) as usize]?;
    let bitfield = message_bytes(alloc, &Message::Bitfield(Bytes::new(bits)))?;
    let unchoke = message_bytes(alloc, &Message::Unchoke)?;
    let mut bytes = Vec::from_slice(alloc, &write_handshake(&hello_of(torrent)))?;
    bytes.extend_from_slice(&bitfield)?;
    bytes.extend_from_slice(&unchoke)?;
    Ok(bytes)
}

fn hello_of(torrent: &Torrent) -> Handshake {
    let mut handshake = Handshake {
        infohash: [0; 20],
        peer_id: [b'p'; 20],
    };
    handshake
        .infohash
        .copy_from_slice(&torrent.infohash()[..20]);
    handshake
}

/// Takes a peer's hello, its bitfield and its unchoke.
fn greet(
    engine: &mut TestEngine,
    peer: PeerKey,
    greeting: &[u8],
    out: &mut String,
) -> Result<(), RowError> {
    if engine.feed(peer, greeting).is_err() {
        return tell(out, "not fed");
    }
    for _ in 0..3 {
        match engine.next(peer) {
            Ok(Some(output)) if output.close.is_none() => {}
            _ => return tell(out, "not welcome"),
        }
    }
    Ok(write!(out, "peer {}", peer.0)?)
}

/// Tells which blocks of the first piece are asked of a peer that comes, has all pieces, and does not choke us: each
/// by its number, after a minus.
pub fn tell_asked(
    alloc: Global,
    engine: &mut TestEngine,
    out: &mut String,
) -> Result<(), RowError> {
    let greeting = greeting_of(alloc, engine.torrent())?;
    let Ok((peer, _)) = engine.connect() else {
        return Err(RowError::Memory(AllocError));
    };
    match engine.feed(peer, &greeting) {
        Ok(()) => tell_first_requests(engine, peer, out),
        Err(cause) => Ok(write!(out, "refused {cause}")?),
    }
}

/// Tells what is asked of a peer by its first three events.
fn tell_first_requests(
    engine: &mut TestEngine,
    peer: PeerKey,
    out: &mut String,
) -> Result<(), RowError> {
    for _ in 0..3 {
        match engine.next(peer) {
            Ok(Some(output)) => tell_requests(out, &output.send)?,
            _ => return tell(out, ", not welcome"),
        }
    }
    Ok(())
}

fn tell_requests(out: &mut String, send: &[(PeerKey, Frame)]) -> Result<(), RowError> {
    for (_, frame) in send {
        tell_request(out, frame)?;
    }
    Ok(())
}

fn tell_request(out: &mut String, frame: &Frame) -> Result<(), RowError> {
    match frame {
        Frame::Message(Message::Request(ask)) if ask.piece == 0 => {
            Ok(write!(out, " -{}", ask.begin / BLOCK_LEN as u32)?)
        }
        _ => Ok(()),
    }
}

/// The key of a peer.
fn peer_from(words: &mut Words) -> Result<PeerKey, RowError> {
    Ok(PeerKey(words.long()?))
}

/// The key of the next words: root, base, index, length and layers.
fn key_from(alloc: Global, words: &mut Words) -> Result<HashKey, RowError> {
    let root = words.digest(alloc)?;
    let base = words.number()?;
    let index = words.number()?;
    let length = words.number()?;
    let layers = words.number()?;
    Ok(HashKey {
        root,
        base,
        index,
        length,
        layers,
    })
}

/// Hashes come from a peer: its key, that of the hashes, and the digests' bytes.
pub fn hashes_row(
    alloc: Global,
    engine: &mut TestEngine,
    words: &mut Words,
    out: &mut String,
) -> Result<(), RowError> {
    let peer = peer_from(words)?;
    let key = key_from(alloc, words)?;
    let digests = words.bytes(alloc)?;
    let bytes = message_bytes(alloc, &Message::Hashes(key, Bytes::new(digests)))?;
    take_in(engine, peer, &bytes, out)
}

/// Bytes of a piece come from a peer: its key, the piece, where they begin, and the bytes.
pub fn piece_row(
    alloc: Global,
    engine: &mut TestEngine,
    words: &mut Words,
    out: &mut String,
) -> Result<(), RowError> {
    let peer = peer_from(words)?;
    let piece = words.number()?;
    let begin = words.number()?;
    let bytes = Bytes::new(words.bytes(alloc)?);
    let message = Message::Piece {
        piece,
        begin,
        bytes,
    };
    take_in(engine, peer, &message_bytes(alloc, &message)?, out)
}

fn message_bytes(alloc: Global, message: &Message) -> Result<Vec<u8>, RowError> {
    if !fits(message) {
        return Err(RowError::Unread);
    }
    Ok(write_message(alloc, message)?)
}

/// Feeds an engine with bytes of a peer, and takes its events until none has come whole.
fn take_in(
    engine: &mut TestEngine,
    peer: PeerKey,
    bytes: &[u8],
    out: &mut String,
) -> Result<(), RowError> {
    match engine.feed(peer, bytes) {
        Ok(()) => take_events(engine, peer, bytes.len(), out),
        Err(cause) => Ok(write!(out, "refused {cause}")?),
    }
}

/// Takes events of a peer, at most this many, until none has come whole or the peer is gone.
fn take_events(
    engine: &mut TestEngine,
    peer: PeerKey,
    most: usize,
    out: &mut String,
) -> Result<(), RowError> {
    for _ in 0..most {
        match engine.next(peer) {
            Ok(Some(output)) => tell_output(out, &output)?,
            Ok(None) | Err(EngineError::NoPeer) => return Ok(()),
            Err(cause) => write!(out, "refused {cause}")?,
        }
    }
    Ok(())
}

/// A peer goes.
pub fn lost_row(
    engine: &mut TestEngine,
    words: &mut Words,
    out: &mut String,
) -> Result<(), RowError> {
    match engine.lost(peer_from(words)?) {
        Ok(()) => tell(out, "done"),
        Err(cause) => Ok(write!(out, "refused {cause}")?),
    }
}
