//! What a peer's handshake and messages do by themselves to the parts of an engine that is to be a run of the
//! machine of `bt_machine`: messages that change their peer alone, hash messages, blocks that come, and blocks
//! that are requested.
#![tactic(auto)]

mod hash_request;
mod hashes;
mod hello;
mod hints;
mod learning;
mod message;
mod outcome;
mod piece;
mod request;
mod runs;
mod serving;
mod settling;
mod spans;

pub use hash_request::take_hash_request;
pub use hashes::{room_for_notes, take_hashes};
pub use hello::hello_fault;
pub use message::{resolved_hash_state, take_peer_event};
pub use outcome::{Outcome, Reply};
pub use piece::take_piece;
pub use request::take_request;
