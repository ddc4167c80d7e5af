//! The errors B1 to B8 of bencoding: a text's faults with the offset where each shows, and out of memory.
ghost use Rattle.std.specs.Prelude.{◌≡◌};
ghost use Rattle.bt_bencode.specs.declared.error.BencodeError.TheVariants.{OutOfMemory as out_of_memory};

use std::alloc::{AllocError, AllocFailed};
use thiserror::Error;

/// Why bytes are no canonical bencoding, each with the offset of the byte where it shows.
#[derive(Clone, Copy, Debug, PartialEq, Eq, Error)]
pub enum BencodeError {
    /// The input ends inside a value; the offset is its length.
    #[error("B1 Truncated {0}")]
    Truncated(usize),
    /// A byte that cannot stand there.
    #[error("B2 BadByte {0}")]
    BadByte(usize),
    /// A zero before another digit, or right after a minus.
    #[error("B3 LeadingZero {0}")]
    LeadingZero(usize),
    /// An integer below -2^63 or above 2^63 - 1; the offset is that of its sign or first digit.
    #[error("B4 IntRange {0}")]
    IntRange(usize),
    /// A key that is not above the one before it; the offset is that of its length's first digit.
    #[error("B5 KeyOrder {0}")]
    KeyOrder(usize),
    /// A list or a dictionary that would begin level 129.
    #[error("B6 TooDeep {0}")]
    TooDeep(usize),
    /// Bytes after the value; the offset is that of the first of them.
    #[error("B7 Trailing {0}")]
    Trailing(usize),
    /// A growth was refused, of the value that is read or of the text that is written.
    #[error("B8 OutOfMemory")]
    OutOfMemory,
}

impl From<AllocError> for BencodeError {
    ghost from_gives = { λ _ e. e ≡ out_of_memory };

    fn from(_error: AllocError) -> Self {
        BencodeError::OutOfMemory
    }
}

impl<T: Drop> From<AllocFailed<T>> for BencodeError {
    ghost from_gives = { λ _ e. e ≡ out_of_memory };

    fn from(_error: AllocFailed<T>) -> Self {
        BencodeError::OutOfMemory
    }
}
