//! The errors of a store: a call is refused, a block is not lent, or no memory is left to make the store.

use thiserror::Error;

/// Why a call that names a block, or a range of blocks, is refused.
#[derive(Clone, Copy, Debug, PartialEq, Eq, Error)]
pub enum StoreError {
    /// The file has no such block, or the block has another length.
    #[error("no such block")]
    Range,
    /// A call of the device failed.
    #[error("device fault")]
    Device,
}

/// Why a block is not lent.
#[derive(Clone, Copy, Debug, PartialEq, Eq, Error)]
pub enum ReadError {
    /// The block is not marked, or the file has no such block.
    #[error("block not marked")]
    NotMarked,
    /// The read failed. The block stays marked.
    #[error("device fault")]
    Device,
    /// What the device gave is not the block whose digest is the leaf. The block is missing now.
    #[error("block damaged")]
    Damaged,
}

/// Out of memory: no store is made. It gives the device back.
#[derive(Debug, Drop)]
pub struct Refused<D> {
    pub disk: D,
}
