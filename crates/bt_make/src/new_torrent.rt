//! What `make` makes.
ghost use Rattle.bt_meta.specs.Writer.{IsInfohashOf};

use bt_tree::Hash32;

/// A torrent that was made: its bytes, and its infohash.
#[derive(Drop)]
pub struct NewTorrent {
    pub text: Vec<u8>,
    pub infohash: Hash32,
    ghost hashed: { IsInfohashOf text.items infohash },
}
