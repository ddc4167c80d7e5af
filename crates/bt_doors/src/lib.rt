//! By which doors connections come to a gate: a socket at which they are waited for, or peers that are dialled.
#![tactic(auto)]

mod dial;
mod dialling;
mod door;
mod listening;

pub use bt_session::PeerEnd;
pub use bt_sockets::Role;
pub use dial::DOOR;
pub use dialling::Dialling;
pub use door::{Door, Visitor};
pub use listening::Listening;
