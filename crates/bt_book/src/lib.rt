//! Who was asked for what, and whom to serve: the request book of a store that takes one torrent's files from
//! several peers, and the choice of the peers that it serves.
//!
//! A *block* is 16,384 bytes of a file, the last one of a file perhaps shorter, named by the file's index and
//! its own. A block is *wanted* while it is missing. A wanted block is asked of one peer at a time, and of up to
//! three while at most 16 are wanted (*endgame*); the block and a peer that is asked for it are a *pair*.
#![tactic(auto)]

mod bit_set;
mod block_set;
mod book;
mod choking;
mod law;
mod names;
mod requests;

pub use book::{Book, MAX_ASKERS, MAX_PEERS};
pub use choking::{Standing, choose};
pub use law::{
    ascending_keys_are_one, counted_blocks_are_contained, equal_sets_count_alike,
    joined_peers_are_contained, pairs_are_of_peers,
};
pub use names::{BlockId, PeerKey};
pub use requests::MAX_REQUESTS;
