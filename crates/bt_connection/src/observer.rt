//! Whom a reader tells what its peer sends, as it comes.
ghost use Rattle.std.specs.Prelude.{◌≡◌};
ghost use Rattle.bt_connection.specs.ObserverSteps.{IsArrivalOf};

use bt_hashreq::number_at;
use bt_wire::Ask;
use bt_wire::frames::{BITFIELD, LENGTH_LEN, PIECE};

/// What came from a peer.
#[derive(Clone, Copy, Debug, PartialEq, Eq)]
pub enum Arrival {
    /// The whole handshake.
    Handshake,
    /// A message without a kind: it only keeps the connection alive.
    KeepAlive,
    /// A part of a bitfield, in which so many bits are set. A bitfield may come in several parts, and after the last
    /// of them is told as a `Message`.
    Bits(u64),
    /// A whole piece, with the bytes of this range.
    Block(Ask),
    /// Any other whole message, by its kind; or a piece that is too short to name its range.
    Message(u8),
}

/// Whom a reader tells what comes from its peer: once for each message, by the read that brings its last byte. No
/// clause speaks of what is told.
pub trait Observer {
    fn came(&self, arrival: Arrival);
}

/// How many bytes of a piece's payload name its place: the index of the piece, and where the block begins in it.
const PLACE_LEN: usize = 8;

/// What has come of the payload of a piece.
#[derive(Clone, Copy)]
pub(crate) struct PiecePayload {
    /// The bytes that name the place, as far as they have come.
    place: [u8; PLACE_LEN],
    /// How many bytes of the payload have come.
    len: usize,
}

impl PiecePayload {
    fn new() -> Self
        ensures { result.len ≡ 0 }
    {
        PiecePayload {
            place: [0; PLACE_LEN],
            len: 0,
        }
    }

    /// Adds the next bytes of the payload.
    fn with(mut self, part: &[u8]) -> Self {
        let known = self.len.min(PLACE_LEN);
        let count = part.len().min(PLACE_LEN - known);
        self.place[known..known + count].copy_from_slice(&part[..count]);
        self.len = self.len.saturating_add(part.len());
        self
    }

    /// What came, where the payload ends here.
    fn arrival(&self) -> Arrival
        ensures { IsArrivalOf self.now result }
    {
        match self.len.checked_sub(PLACE_LEN) {
            Some(len) => Arrival::Block(Ask {
                piece: number_at(&self.place, 0),
                begin: number_at(&self.place, 4),
                length: u32::try_from(len).unwrap_or(u32::MAX),
            }),
            None => Arrival::Message(PIECE),
        }
    }
}

/// What is still to come of a handshake or a message that is given as it comes.
#[derive(Clone, Copy)]
pub(crate) enum Rest {
    /// Nothing; or bytes of which nobody is told, since they come after an end.
    Nothing,
    Handshake,
    /// All of a message but its length field.
    Message,
    /// The rest of the payload of a piece, behind what has come of it.
    Piece(PiecePayload),
    /// The rest of the payload of another message, of this kind.
    Payload(u8),
}

impl Rest {
    /// The whole payload of a message of this kind, of which nothing has come.
    fn payload_of(kind: u8) -> Rest {
        match kind {
            PIECE => Rest::Piece(PiecePayload::new()),
            _ => Rest::Payload(kind),
        }
    }

    /// Tells the observer what the next bytes, `part`, bring, and gives what is still to come after them: nothing
    /// where they are the last.
    pub(crate) fn tell<O: Observer>(self, observer: &O, part: &[u8], is_last: bool) -> Rest {
        let rest = self.tell_part(observer, part);
        if !is_last {
            return rest;
        }
        match rest {
            Rest::Handshake => observer.came(Arrival::Handshake),
            Rest::Piece(payload) => observer.came(payload.arrival()),
            Rest::Payload(kind) => observer.came(Arrival::Message(kind)),
            Rest::Nothing | Rest::Message => {}
        }
        Rest::Nothing
    }

    /// Tells the observer what the next bytes bring of a payload, and gives what is still to come after them if they
    /// are not the last.
    fn tell_part<O: Observer>(self, observer: &O, part: &[u8]) -> Rest {
        match (self, part) {
            (Rest::Message, [kind, payload @ ..]) => {
                Rest::payload_of(*kind).tell_payload(observer, payload)
            }
            _ => self.tell_payload(observer, part),
        }
    }

    /// The same for bytes that do not begin with the kind of a message.
    fn tell_payload<O: Observer>(self, observer: &O, part: &[u8]) -> Rest {
        match self {
            Rest::Piece(payload) => Rest::Piece(payload.with(part)),
            Rest::Payload(kind) => {
                tell_bits(observer, kind, part);
                self
            }
            Rest::Nothing | Rest::Handshake | Rest::Message => self,
        }
    }
}

/// Tells the observer of a whole message.
pub(crate) fn tell_message<O: Observer>(observer: &O, message: &[u8]) {
    match message.get(LENGTH_LEN..) {
        Some([]) | None => observer.came(Arrival::KeepAlive),
        Some(behind) => {
            let _ = Rest::Message.tell(observer, behind, true);
        }
    }
}

/// Tells the observer how many bits are set in a part of a payload, if that is a bitfield's.
fn tell_bits<O: Observer>(observer: &O, kind: u8, part: &[u8]) {
    if kind == BITFIELD && !part.is_empty() {
        observer.came(Arrival::Bits(bit_count(part)));
    }
}

/// How many bits are set in these bytes.
fn bit_count(bytes: &[u8]) -> u64 {
    let mut count: u64 = 0;
    for byte in bytes {
        count = count.saturating_add(u64::from(byte.count_ones()));
    }
    count
}
