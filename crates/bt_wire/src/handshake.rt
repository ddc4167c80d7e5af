//! The handshake (BEP 3) and its 68 bytes: the protocol, the infohash's first 20 bytes and the peer's id.
ghost use Rattle.std.specs.Prelude.{◌≡◌};
ghost use Rattle.bt_wire.specs.Handshake.{handshake_spelling};

use bt_hashreq::put;

/// How many bytes a handshake has (BEP 3).
pub const HANDSHAKE_LEN: usize = 68;

/// The length of the protocol's name and the name, with which every stream begins (BEP 3).
pub(crate) const PROTOCOL: [u8; 20] = *b"\x13BitTorrent protocol";

/// The first bytes of each side (BEP 3).
#[derive(Clone, Copy, Debug, PartialEq, Eq)]
pub struct Handshake {
    /// The first 20 bytes of the torrent's infohash.
    pub infohash: [u8; 20],
    /// The sender's own name.
    pub peer_id: [u8; 20],
}

/// The bytes that spell a handshake: the protocol, 8 reserved bytes that are zero, the infohash, the peer's
/// id.
pub fn write_handshake(handshake: &Handshake) -> [u8; HANDSHAKE_LEN]
    ensures { result ≡ handshake_spelling handshake.now }
{
    let mut bytes = [0; HANDSHAKE_LEN];
    put(&mut bytes, 0, &PROTOCOL);
    put(&mut bytes, 20, &[0; 8]);
    put(&mut bytes, 28, &handshake.infohash);
    put(&mut bytes, 48, &handshake.peer_id);
    bytes
}
