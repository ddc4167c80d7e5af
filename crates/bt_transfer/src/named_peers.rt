//! The peers that a fetch was asked to fetch from.

use bt_words::Peer;

/// The peers that a fetch was asked to fetch from, and in which way.
#[derive(Clone, Copy)]
pub struct NamedPeers<'a> {
    /// The peers, in the order in which they were named; one may be there twice.
    pub peers: &'a [Peer<'a>],
    /// Whether they are fetched from at once, up to 64 of them at a time, and not one after the other.
    pub are_together: bool,
}
