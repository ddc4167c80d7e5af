//! What follows from an event for one peer: our interest is told, a hash request is sent, and blocks are
//! requested. And what is done at once for all files, for all peers or for a whole file: devices are synced, the
//! peers to serve are chosen anew, and what the device of a file has already is taken in, group after group, and
//! then the blocks that wait in the other files of its root.
#![tactic(auto)]

mod adoption;
mod after_event;
mod asking;
mod devices;
mod group;
mod groups;
mod hash_requests;
mod held;
mod interest;
mod known_pieces;
mod marks;
mod run_proofs;
mod sending;
mod serving;
mod settling;
mod waiting;

pub use adoption::adopt;
pub use after_event::{MAX_FRAMES, follow_up};
pub use devices::flush;
pub use serving::rechoke;
