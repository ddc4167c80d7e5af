//! SHA-256 (FIPS 180-4) of eight messages at a time, one in each lane of a vector.
//!
//! Nothing here takes memory.
#![tactic(auto)]

mod compression;
mod digest;
mod functions;
mod lanes;
mod many;
mod message_blocks;
mod padding;
mod schedules;
mod single;
mod word_compression;
mod word_functions;

pub use lanes::Lanes;
pub use many::digest_many;
