//! How a message is written: its length field, its kind and its payload (BEP 3, BEP 52).
ghost use Rattle.std.specs.Prelude.{◌≡◌, ◌+◌, ◌≤◌, ◌++◌, length, IfOk};
ghost use Rattle.bt_wire.specs.declared.message.TheConstants.{MAX_LENGTH_FIELD};
ghost use Rattle.std.specs.Int.{w32, to_be_bytes};
ghost use Rattle.bt_wire.specs.Message.{Fits, ask_spelling, body, frame_spelling, message_spelling};

use crate::frames;
use crate::message::{Ask, Message};
use bt_hashreq::write_key;
use std::alloc::{AllocError, Global};

/// How many bytes the numbers of a request have.
const ASK_LEN: usize = 12;

/// The bytes that spell a message: its length field, its kind and its payload. A keepalive is a length field
/// of 0. The message has to fit, which `fits` checks. Errors: out of memory.
pub fn write_message(alloc: Global, message: &Message) -> Result<Vec<u8>, AllocError>
    requires { Fits message.now }
    ensures { IfOk result (λ bytes. bytes.items ≡ message_spelling message.now) }
{
    match message {
        Message::KeepAlive => Vec::from_slice(alloc, &[0; 4]),
        Message::Choke => frame(alloc, frames::CHOKE, &[], &[]),
        Message::Unchoke => frame(alloc, frames::UNCHOKE, &[], &[]),
        Message::Interested => frame(alloc, frames::INTERESTED, &[], &[]),
        Message::NotInterested => frame(alloc, frames::NOT_INTERESTED, &[], &[]),
        Message::Have(piece) => frame(alloc, frames::HAVE, &piece.to_be_bytes(), &[]),
        Message::Bitfield(bits) => frame(alloc, frames::BITFIELD, &[], bits.as_slice()),
        Message::Request(ask) => frame(alloc, frames::REQUEST, &ask_bytes(ask), &[]),
        Message::Piece {
            piece,
            begin,
            bytes,
        } => {
            let numbers = two_numbers(*piece, *begin);
            frame(alloc, frames::PIECE, &numbers, bytes.as_slice())
        }
        Message::Cancel(ask) => frame(alloc, frames::CANCEL, &ask_bytes(ask), &[]),
        Message::HashRequest(key) => frame(alloc, frames::HASH_REQUEST, &write_key(key), &[]),
        Message::Hashes(key, digests) => {
            frame(alloc, frames::HASHES, &write_key(key), digests.as_slice())
        }
        Message::HashReject(key) => frame(alloc, frames::HASH_REJECT, &write_key(key), &[]),
    }
}

/// The bytes of a message of this kind, whose payload is the two runs.
fn frame(alloc: Global, kind: u8, front: &[u8], back: &[u8]) -> Result<Vec<u8>, AllocError>
    requires { 1 + length (front.now ++ back.now) ≤ MAX_LENGTH_FIELD }
    ensures { IfOk result (λ bytes. bytes.items ≡ frame_spelling
        (body kind (front.now ++ back.now))) }
{
    let len = 1 + front.len() + back.len();
    let mut bytes = Vec::with_capacity(alloc, 4 + len)?;
    bytes.extend_from_slice(&(len as u32).to_be_bytes())?;
    bytes.push(kind)?;
    bytes.extend_from_slice(front)?;
    bytes.extend_from_slice(back)?;
    Ok(bytes)
}

/// The payload of a request or a cancel.
fn ask_bytes(ask: &Ask) -> [u8; ASK_LEN]
    ensures { result ≡ ask_spelling ask.now }
{
    let [a, b, c, d] = ask.piece.to_be_bytes();
    let [e, f, g, h] = ask.begin.to_be_bytes();
    let [i, j, k, l] = ask.length.to_be_bytes();
    [a, b, c, d, e, f, g, h, i, j, k, l]
}

/// Two numbers, the high byte of each first.
fn two_numbers(first: u32, second: u32) -> [u8; 8]
    ensures { result ≡ to_be_bytes w32 first ++ to_be_bytes w32 second }
{
    let [a, b, c, d] = first.to_be_bytes();
    let [e, f, g, h] = second.to_be_bytes();
    [a, b, c, d, e, f, g, h]
}
