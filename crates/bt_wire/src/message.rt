//! The messages of the peer wire (BEP 3, BEP 52), and which of them can be sent.
ghost use Rattle.std.specs.Prelude.{◌≡◌, IsTrue, ◌↔◌, length};
ghost use Rattle.bt_hashreq.specs.Key.{key_length, key_spelling};
ghost use Rattle.bt_wire.specs.Message.{Fits};

use crate::bytes::Bytes;
use bt_hashreq::HashKey;

/// The greatest length field of a message, a limit of this project.
pub const MAX_LENGTH_FIELD: usize = 1 << 20;

/// A range of a piece's bytes, as a request or a cancel names it (BEP 3).
#[derive(Clone, Copy, Debug, PartialEq, Eq)]
pub struct Ask {
    /// The index of the piece.
    pub piece: u32,
    /// The offset of the first byte in the piece.
    pub begin: u32,
    /// The number of bytes.
    pub length: u32,
}

/// A message of the peer wire (BEP 3, "peer messages"; BEP 52, "hash request", "hashes" and "hash reject").
#[derive(Debug, Drop)]
pub enum Message {
    /// Nothing: a length field of 0.
    KeepAlive,
    /// Requests of the other side are not served.
    Choke,
    /// Requests of the other side are served.
    Unchoke,
    /// The sender wants pieces of the other side.
    Interested,
    /// The sender wants no piece of the other side.
    NotInterested,
    /// The index of a piece that the sender has.
    Have(u32),
    /// A bit for each piece; the high bit of the first byte is piece 0.
    Bitfield(Bytes),
    /// Asks for bytes of a piece.
    Request(Ask),
    /// Bytes of a piece, from the offset `begin` on.
    Piece {
        piece: u32,
        begin: u32,
        bytes: Bytes,
    },
    /// Takes a request back.
    Cancel(Ask),
    /// Asks for digests of a file's tree.
    HashRequest(HashKey),
    /// The digests that the key names, 32 bytes each.
    Hashes(HashKey, Bytes),
    /// The digests that the key names are not given.
    HashReject(HashKey),
}

/// Whether a message can be sent: its length field is at most 2^20, and its digests have 32 bytes each.
pub fn fits(message: &Message) -> bool
    ensures { IsTrue result ↔ Fits message.now }
{
    match message {
        Message::Bitfield(bits) => bits.as_slice().len() < MAX_LENGTH_FIELD,
        Message::Piece { bytes, .. } => bytes.as_slice().len() < MAX_LENGTH_FIELD - 8,
        Message::HashRequest(key) | Message::HashReject(key) => key_len(key) < MAX_LENGTH_FIELD,
        Message::Hashes(key, digests) => {
            let len = digests.as_slice().len();
            len < MAX_LENGTH_FIELD - key_len(key) && len % 32 == 0
        }
        _ => true,
    }
}

/// How many bytes a key takes in a message, `KEY_LEN`. They are counted, since a proof knows that a root has
/// 32 bytes only where it is read.
fn key_len(key: &HashKey) -> usize
    ensures spelled { result ≡ length (key_spelling key.now) }
    ensures value { result ≡ key_length }
{
    key.root.as_slice().len() + 16
}
