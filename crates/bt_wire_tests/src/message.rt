//! Handshakes and messages, in words and from words.

use crate::bytes::{Words, push_digests, push_each, push_shown};
use crate::key::{key_from, push_key};
use bt_hashreq::HashKey;
use bt_rows::push_hex;
use bt_sparse::{Digests, ProofError};
use bt_wire::{
    Ask, Bytes, Handshake, Message, WireError, WireEvent, fits, write_handshake, write_message,
};
use std::alloc::{AllocError, Global};
use std::fmt::Write;

/// Adds an event in words.
pub fn push_event(alloc: Global, out: &mut String, event: &WireEvent) -> Result<(), AllocError> {
    match event {
        WireEvent::Hello(handshake) => push_hello(alloc, out, handshake),
        WireEvent::Message(message) => push_message(alloc, out, message),
        WireEvent::Skipped(kind) => write!(out, "skipped {kind}"),
    }
}

fn push_hello(alloc: Global, out: &mut String, handshake: &Handshake) -> Result<(), AllocError> {
    out.push_str("hello ")?;
    push_hex(alloc, out, &handshake.infohash)?;
    out.push_str(" ")?;
    push_hex(alloc, out, &handshake.peer_id)
}

/// Adds a message in the words of a `write` row.
fn push_message(alloc: Global, out: &mut String, message: &Message) -> Result<(), AllocError> {
    match message {
        Message::KeepAlive => out.push_str("keepalive"),
        Message::Choke => out.push_str("choke"),
        Message::Unchoke => out.push_str("unchoke"),
        Message::Interested => out.push_str("interested"),
        Message::NotInterested => out.push_str("not_interested"),
        Message::Have(piece) => write!(out, "have {piece}"),
        Message::Bitfield(bits) => push_bitfield(alloc, out, bits.as_slice()),
        Message::Request(ask) => push_ask(out, "request", ask),
        Message::Piece {
            piece,
            begin,
            bytes,
        } => push_piece(alloc, out, *piece, *begin, bytes.as_slice()),
        Message::Cancel(ask) => push_ask(out, "cancel", ask),
        Message::HashRequest(key) => push_keyed(alloc, out, "hash_request ", key),
        Message::Hashes(key, digests) => push_hashes(alloc, out, key, digests.as_slice()),
        Message::HashReject(key) => push_keyed(alloc, out, "hash_reject ", key),
    }
}

fn push_bitfield(alloc: Global, out: &mut String, bits: &[u8]) -> Result<(), AllocError> {
    out.push_str("bitfield ")?;
    push_shown(alloc, out, bits)
}

fn push_ask(out: &mut String, name: &str, ask: &Ask) -> Result<(), AllocError> {
    out.push_str(name)?;
    push_each(out, &[ask.piece, ask.begin, ask.length])
}

fn push_piece(
    alloc: Global,
    out: &mut String,
    piece: u32,
    begin: u32,
    bytes: &[u8],
) -> Result<(), AllocError> {
    write!(out, "piece {piece} {begin} ")?;
    push_shown(alloc, out, bytes)
}

fn push_keyed(
    alloc: Global,
    out: &mut String,
    name: &str,
    key: &HashKey,
) -> Result<(), AllocError> {
    out.push_str(name)?;
    push_key(alloc, out, key)
}

fn push_hashes(
    alloc: Global,
    out: &mut String,
    key: &HashKey,
    digests: &[u8],
) -> Result<(), AllocError> {
    push_keyed(alloc, out, "hashes ", key)?;
    out.push_str(" ")?;
    push_shown(alloc, out, digests)
}

/// The bytes of a message, if it fits.
pub fn write_row(alloc: Global, words: &mut Words, out: &mut String) -> Result<(), AllocError> {
    let message = message_from(alloc, words)?;
    push_written(alloc, out, &message)
}

fn push_written(alloc: Global, out: &mut String, message: &Message) -> Result<(), AllocError> {
    if !fits(message) {
        return out.push_str("does not fit");
    }
    let bytes = write_message(alloc, message)?;
    push_shown(alloc, out, &bytes)
}

fn message_from(alloc: Global, words: &mut Words) -> Result<Message, AllocError> {
    match words.word() {
        "keepalive" => Ok(Message::KeepAlive),
        "choke" => Ok(Message::Choke),
        "unchoke" => Ok(Message::Unchoke),
        "interested" => Ok(Message::Interested),
        "not_interested" => Ok(Message::NotInterested),
        "have" => Ok(Message::Have(words.number())),
        "request" => Ok(Message::Request(ask_from(words))),
        "cancel" => Ok(Message::Cancel(ask_from(words))),
        name => long_message_from(alloc, name, words),
    }
}

/// A message that carries a key or bytes.
fn long_message_from(alloc: Global, name: &str, words: &mut Words) -> Result<Message, AllocError> {
    match name {
        "hash_request" => Ok(Message::HashRequest(key_from(alloc, words)?)),
        "hash_reject" => Ok(Message::HashReject(key_from(alloc, words)?)),
        "bitfield" => Ok(Message::Bitfield(Bytes::new(words.bytes(alloc)?))),
        "piece" => piece_from(alloc, words),
        "hashes" => hashes_from(alloc, words),
        _ => {
            words.are_wrong();
            Ok(Message::KeepAlive)
        }
    }
}

fn ask_from(words: &mut Words) -> Ask {
    let piece = words.number();
    let begin = words.number();
    let length = words.number();
    Ask {
        piece,
        begin,
        length,
    }
}

fn piece_from(alloc: Global, words: &mut Words) -> Result<Message, AllocError> {
    let piece = words.number();
    let begin = words.number();
    let bytes = Bytes::new(words.bytes(alloc)?);
    Ok(Message::Piece {
        piece,
        begin,
        bytes,
    })
}

fn hashes_from(alloc: Global, words: &mut Words) -> Result<Message, AllocError> {
    let key = key_from(alloc, words)?;
    let digests = Bytes::new(words.bytes(alloc)?);
    Ok(Message::Hashes(key, digests))
}

/// The bytes of a handshake.
pub fn hello_row(alloc: Global, words: &mut Words, out: &mut String) -> Result<(), AllocError> {
    let infohash = words.array(alloc)?;
    let peer_id = words.array(alloc)?;
    let bytes = write_handshake(&Handshake { infohash, peer_id });
    push_shown(alloc, out, &bytes)
}

/// What a list shows, and what it gives back.
pub fn list_row(alloc: Global, words: &mut Words, out: &mut String) -> Result<(), AllocError> {
    match words.word() {
        "bytes" => bytes_list(alloc, words, out),
        "digests" => digest_list(alloc, words, out),
        _ => {
            words.are_wrong();
            Ok(())
        }
    }
}

fn bytes_list(alloc: Global, words: &mut Words, out: &mut String) -> Result<(), AllocError> {
    let list = Bytes::new(words.bytes(alloc)?);
    push_shown(alloc, out, list.as_slice())?;
    out.push_str(" and back ")?;
    push_shown(alloc, out, &list.into_vec())
}

fn digest_list(alloc: Global, words: &mut Words, out: &mut String) -> Result<(), AllocError> {
    let list = Digests::new(words.digests(alloc)?);
    push_digests(alloc, out, list.as_slice())?;
    out.push_str(" and back ")?;
    push_digests(alloc, out, &list.into_vec())
}

/// The texts of errors that no row brings about.
pub fn texts_row(out: &mut String) -> Result<(), AllocError> {
    write!(
        out,
        "{}, {}",
        WireError::OutOfMemory,
        ProofError::OutOfMemory
    )
}
