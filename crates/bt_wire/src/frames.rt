//! The frames of a peer's stream (BEP 3, "peer messages"; BEP 52): the kinds of messages, their lengths, and what is a
//! request and a piece. Who looks at a stream without cutting it takes these from here.
ghost use Rattle.std.specs.Prelude.{◌≡◌, ◌+◌, ◌-◌, ◌≤◌, ℕ, List, length, IfSome, IfNone};
ghost use Rattle.bt_wire.specs.declared.message.TheConstants.{MAX_LENGTH_FIELD};
ghost use Rattle.bt_wire.specs.Event.{IsSent};
ghost use Rattle.bt_wire.specs.Frames.{IsFrame, BeginsFrame, BeginsWithField, HasNoMessage, IsPieceOf, message_length};
ghost use Rattle.bt_wire.specs.declared.message.Ask.{Ask};
ghost use Rattle.bt_wire.specs.declared.message.Message.TheVariants.{Request, Piece};

use crate::message::Ask;
use bt_hashreq::number_at;
use bt_tree::BLOCK_LEN;

/// The kind of the message "choke" (BEP 3). The byte after a message's length field tells its kind.
pub const CHOKE: u8 = 0;

/// The kind of the message "unchoke" (BEP 3).
pub const UNCHOKE: u8 = 1;

/// The kind of the message "interested" (BEP 3).
pub const INTERESTED: u8 = 2;

/// The kind of the message "not interested" (BEP 3).
pub const NOT_INTERESTED: u8 = 3;

/// The kind of the message "have" (BEP 3).
pub const HAVE: u8 = 4;

/// The kind of the message "bitfield" (BEP 3).
pub const BITFIELD: u8 = 5;

/// The kind of the message "request" (BEP 3).
pub const REQUEST: u8 = 6;

/// The kind of the message "piece" (BEP 3).
pub const PIECE: u8 = 7;

/// The kind of the message "cancel" (BEP 3).
pub const CANCEL: u8 = 8;

/// The kind of the message "hash request" (BEP 52).
pub const HASH_REQUEST: u8 = 21;

/// The kind of the message "hashes" (BEP 52).
pub const HASHES: u8 = 22;

/// The kind of the message "hash reject" (BEP 52).
pub const HASH_REJECT: u8 = 23;

/// How many bytes a length field has: it tells how many follow.
pub const LENGTH_LEN: usize = 4;

/// How many bytes a length field and a kind have.
pub const HEAD_LEN: usize = LENGTH_LEN + 1;

/// The length field of a request: its kind, the piece, where in it the bytes begin, and how many they are.
pub const REQUEST_FIELD: usize = 13;

/// The length field of a piece without bytes: its kind, the piece, and where in it the bytes begin.
pub const PIECE_FIELD: usize = 9;

/// How many bytes a request has.
pub const REQUEST_LEN: usize = LENGTH_LEN + REQUEST_FIELD;

/// How many bytes of a piece stand before its block, and of a request before the length that it names.
pub const PIECE_HEAD_LEN: usize = LENGTH_LEN + PIECE_FIELD;

/// How many bytes a piece with a whole block has.
pub const BLOCK_MESSAGE_LEN: usize = PIECE_HEAD_LEN + BLOCK_LEN;

/// How a request begins: its length field and its kind.
const REQUEST_HEAD: [u8; HEAD_LEN] = [0, 0, 0, 13, REQUEST];

/// How many bytes the message has that begins so: its length field, and as many as that tells.
pub fn message_len(bytes: &[u8]) -> usize
    requires { 4 ≤ length bytes.now }
    ensures value { result ≡ message_length bytes.now }
    ensures field { BeginsWithField bytes.now (result - 4) }
{
    LENGTH_LEN + number_at(bytes, 0) as usize
}

/// How many bytes the first message has; None where it is not whole.
pub fn first_message(bytes: &[u8]) -> Option<usize>
    ensures some { IfSome result (λ len. 4 ≤ len) }
    ensures whole { IfSome result (BeginsFrame bytes.now) }
    ensures part { IfNone result (HasNoMessage bytes.now) }
{
    if bytes.len() < LENGTH_LEN {
        return None;
    }
    let len = message_len(bytes);
    if bytes.len() < len {
        return None;
    }
    Some(len)
}

/// The request that a frame is.
pub fn read_request(frame: &[u8]) -> Option<Ask>
    ensures some { IfSome result (λ ask. IsSent (Request ask) frame.now) }
    ensures none { IfNone result ((ask : Ask) → ¬ IsSent (Request ask) frame.now) }
{
    if frame.len() != REQUEST_LEN || !frame.starts_with(&REQUEST_HEAD) {
        return None;
    }
    Some(Ask {
        piece: number_at(frame, 5),
        begin: number_at(frame, 9),
        length: number_at(frame, 13),
    })
}

/// The range of the block that a frame is the piece of.
pub fn read_piece(frame: &[u8]) -> Option<Ask>
    requires frame { IsFrame frame.now }
    requires few { length frame.now ≤ 4 + MAX_LENGTH_FIELD }
    ensures some { IfSome result (IsPieceOf frame.now) }
    ensures none { IfNone result ((piece begin : ℕ) (bytes : List ℕ)
        → ¬ IsSent (Piece piece begin bytes) frame.now) }
{
    let block = frame.get(PIECE_HEAD_LEN..)?;
    if frame[LENGTH_LEN] != PIECE {
        return None;
    }
    Some(Ask {
        piece: number_at(frame, 5),
        begin: number_at(frame, 9),
        length: block.len() as u32,
    })
}
