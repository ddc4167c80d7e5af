//! What an engine keeps of a connected peer: bytes of which no event was taken, chokes and interest (BEP 3),
//! its pieces, how it stands with hash requests, and its traffic.
use crate::piece_set::PieceSet;
use bt_book::PeerKey;
use bt_machine::HashState;
use bt_wire::Cutter;

/// A connected peer. Which blocks it is asked for stands in the book.
#[derive(Debug, Drop)]
pub struct Peer {
    pub key: PeerKey,
    /// The bytes that came from it, of which no event was taken.
    pub cutter: Cutter,
    pub am_choking: bool,
    pub am_interested: bool,
    pub peer_choking: bool,
    pub peer_interested: bool,
    /// The pieces that it has.
    pub has: PieceSet,
    pub hash: HashState,
    /// How many bytes of blocks came from it and went to it since the last choice of peers to serve.
    pub payload: u64,
}
