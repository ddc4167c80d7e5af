//! How a message is read from its kind and payload (BEP 3, BEP 52), and which payload lengths fit a kind.
ghost use Rattle.std.specs.Prelude.{◌≡◌, ◌↔◌, length, IsSome, IsTrue, IfSome, IfNone, IfOk, IfErr};
ghost use Rattle.bt_wire.specs.Message.{ask_spelling, IsAsk, IsKnownKind, CarriesBytes};
ghost use Rattle.bt_wire.specs.ReaderSteps.{HasSize, IsListed, IsMessageOf};

use crate::bytes::Bytes;
use crate::frames;
use crate::message::{Ask, Message};
use bt_hashreq::{KEY_LEN, number_at, whole_key};
use std::alloc::{AllocError, Global};

/// Whether a payload of `len` bytes fits the kind; None for an unknown kind.
pub(crate) fn payload_fits(kind: u8, len: usize) -> Option<bool>
    ensures listed { IsSome result ↔ IsListed kind }
    ensures fits { IfSome result (λ fits. IsTrue fits ↔ HasSize kind len) }
{
    match kind {
        frames::CHOKE..=frames::NOT_INTERESTED => Some(len == 0),
        frames::HAVE => Some(len == 4),
        frames::BITFIELD => Some(true),
        frames::REQUEST | frames::CANCEL => Some(len == 12),
        frames::PIECE => Some(len >= 8),
        frames::HASH_REQUEST | frames::HASH_REJECT => Some(len == KEY_LEN),
        frames::HASHES => Some(len >= KEY_LEN && (len - KEY_LEN) % 32 == 0),
        _ => None,
    }
}

/// The message of a kind and a payload; None for an unknown kind.
pub(crate) fn read_message(
    alloc: Global,
    kind: u8,
    payload: &[u8],
) -> Result<Option<Message>, AllocError>
    requires { HasSize kind (length payload.now) }
    ensures message { IfOk result (λ found. IfSome found (IsMessageOf kind payload.now)) }
    ensures unknown { IfOk result (λ found. IfNone found (¬ IsKnownKind kind)) }
    ensures refused { IfErr result (λ _. (m : Message) × IsMessageOf kind payload.now m
        × CarriesBytes m) }
{
    match kind {
        frames::CHOKE => Ok(Some(Message::Choke)),
        frames::UNCHOKE => Ok(Some(Message::Unchoke)),
        frames::INTERESTED => Ok(Some(Message::Interested)),
        frames::NOT_INTERESTED => Ok(Some(Message::NotInterested)),
        frames::HAVE => Ok(Some(Message::Have(number_at(payload, 0)))),
        frames::BITFIELD => Ok(Some(Message::Bitfield(copied(alloc, payload)?))),
        frames::REQUEST => Ok(Some(Message::Request(read_ask(payload)))),
        frames::PIECE => Ok(Some(Message::Piece {
            piece: number_at(payload, 0),
            begin: number_at(payload, 4),
            bytes: copied(alloc, &payload[8..])?,
        })),
        frames::CANCEL => Ok(Some(Message::Cancel(read_ask(payload)))),
        frames::HASH_REQUEST => Ok(Some(Message::HashRequest(whole_key(payload)))),
        frames::HASHES => {
            let (key, digests) = payload.split_at(KEY_LEN);
            Ok(Some(Message::Hashes(whole_key(key), copied(alloc, digests)?)))
        }
        frames::HASH_REJECT => Ok(Some(Message::HashReject(whole_key(payload)))),
        _ => Ok(None),
    }
}

/// A copy of bytes.
fn copied(alloc: Global, bytes: &[u8]) -> Result<Bytes, AllocError>
    ensures { IfOk result (λ copy. copy ≡ bytes.now) }
{
    Ok(Bytes::new(Vec::from_slice(alloc, bytes)?))
}

/// The payload of a request or a cancel.
fn read_ask(bytes: &[u8]) -> Ask
    requires { length bytes.now ≡ 12 }
    ensures spelled { ask_spelling result ≡ bytes.now }
    ensures numbers { IsAsk result }
{
    Ask {
        piece: number_at(bytes, 0),
        begin: number_at(bytes, 4),
        length: number_at(bytes, 8),
    }
}
