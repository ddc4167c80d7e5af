//! The blocks of one file on a device: which are missing, which wait for their leaf, and which are marked,
//! because they were read or written with the digest that the file's hash tree (BEP 52) holds at their
//! leaf.
#![tactic(auto)]

mod adoption;
mod arrival;
mod batches;
mod block_states;
mod error;
mod file_store;
mod groups;
mod law;
mod review;
mod single_block;
mod small_groups;
mod state_chunk;

pub use adoption::Adopted;
pub use arrival::Put;
pub use block_states::BlockState;
pub use error::{ReadError, Refused, StoreError};
pub use file_store::FileStore;
pub use groups::{Group, group_below};
pub use law::{
    accepted_reads_are_right, adopt_extends, adopt_marks_by_bytes, reads_decide_each,
    recalled_blocks_are_restored, right_blocks_are_files, waiting_blocks_lie_inside,
};
pub use review::{Rechecked, Settled};
pub use small_groups::AdoptedGroups;
