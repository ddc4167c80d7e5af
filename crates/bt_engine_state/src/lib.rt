//! The parts of an engine as plain structs: its torrent, the trees of its roots, the blocks of its files, its
//! peers and its request book; what of the machine's state they tell, what ties them together, and what is
//! done to them.
#![tactic(auto)]

mod block_change;
mod comparison;
mod connection;
mod counts;
mod greeting;
mod law;
mod open_log;
mod parts;
mod peer;
mod peers;
mod pending;
mod piece_set;
mod recount;
mod reports;
mod roots;
mod sizes;
mod slot;
mod writing;

pub use block_change::follow_block;
pub use bt_book::MAX_PEERS;
pub use bt_machine::FlushError;
pub use connection::connect;
pub use counts::Counts;
pub use law::writing_flushes;
pub use open_log::OpenLog;
pub use parts::Parts;
pub use peer::Peer;
pub use peers::{feed, feed_buffer, index_of, lost};
pub use pending::Pending;
pub use piece_set::PieceSet;
pub use recount::{count_in, leave_out};
pub use reports::{disk, is_complete, peer_count, report};
pub use roots::Roots;
pub use slot::Slot;
