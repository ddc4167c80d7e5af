//! The peer wire of BitTorrent (BEP 3, BEP 52): how a handshake and messages are spelled, and how a stream of
//! bytes that comes in parts of any size is cut into them.
#![tactic(auto)]

mod bytes;
mod cutter;
mod event;
pub mod frames;
mod front;
mod handshake;
mod law;
mod message;
mod reader;
mod writer;

pub use bytes::Bytes;
pub use cutter::Cutter;
pub use event::{WireError, WireEvent};
pub use handshake::{HANDSHAKE_LEN, Handshake, write_handshake};
pub use law::{
    cuts_are_streams, cutting_makes_no_difference, faults_stand_alone, streams_have_one_reading,
    writing_is_read,
};
pub use message::{Ask, MAX_LENGTH_FIELD, Message, fits};
pub use writer::write_message;
