//! The reasons M1 to M18 to refuse bytes as a torrent, and which of them is given where several apply.
ghost use Rattle.std.specs.Prelude.{◌≡◌};
ghost use Rattle.bt_meta.specs.declared.error.MetaError.TheVariants.{OutOfMemory as out_of_memory};
ghost use Rattle.bt_meta.specs.Error.{refusal_of};

use bt_bencode::BencodeError;
use std::alloc::{AllocError, AllocFailed};
use thiserror::Error;

/// Why bytes are no torrent that is taken here. The first that applies is returned: M1 to M7 as they stand
/// here, then M8 to M14 entry by entry in tree order, then M15 to M17 file by file. But `OutOfMemory` may
/// stand in place of any, and more than 2^27 bytes are `TooMany` before all.
#[derive(Clone, Copy, Debug, PartialEq, Eq, Error)]
pub enum MetaError {
    /// The bytes are no canonical bencoding.
    #[error("M1 Bencode {0}")]
    Bencode(BencodeError),
    /// There is no dictionary `info`; or, for `read_info`, the bytes spell no dictionary.
    #[error("M2 NoInfo")]
    NoInfo,
    /// `info` has no integer `meta version`.
    #[error("M3 NotV2")]
    NotV2,
    /// The `meta version` is not 2.
    #[error("M4 Version {0}")]
    Version(i64),
    /// `info` has `pieces`, `length` or `files`, as that of a v1 torrent.
    #[error("M5 Hybrid")]
    Hybrid,
    /// `info` has no string `name`.
    #[error("M6 NoName")]
    NoName,
    /// The `piece length` is no power of two from 2^14 to 2^28.
    #[error("M7 PieceLength")]
    PieceLength,
    /// There is no `file tree`, it is not made of dictionaries, it has the empty key at its top, or further
    /// down beside other keys, or it has no file.
    #[error("M8 Tree")]
    Tree,
    /// A path element is `.` or `..`, has `/` or a zero byte, or is not UTF-8.
    #[error("M9 BadPath")]
    BadPath,
    /// A file is a symbolic link.
    #[error("M10 Symlink")]
    Symlink,
    /// A file has no integer `length` from 0 to 2^40.
    #[error("M11 FileLength")]
    FileLength,
    /// A file that is not empty has no `pieces root` of 32 bytes.
    #[error("M12 BadRoot")]
    BadRoot,
    /// Two files have one root and two lengths.
    #[error("M13 RootConflict")]
    RootConflict,
    /// More than 64 elements in a path, 65,536 files, 2^21 pieces or 2^27 bytes.
    #[error("M14 TooMany")]
    TooMany,
    /// A file longer than one piece has no string in `piece layers`.
    #[error("M15 LayerMissing")]
    LayerMissing,
    /// A layer does not have 32 bytes for each piece of its file.
    #[error("M16 LayerSize")]
    LayerSize,
    /// A layer gives another root than its file's.
    #[error("M17 LayerDiffers")]
    LayerDiffers,
    #[error("M18 OutOfMemory")]
    OutOfMemory,
}

impl From<BencodeError> for MetaError {
    ghost from_gives = { λ fault e. e ≡ refusal_of fault };

    fn from(fault: BencodeError) -> Self {
        match fault {
            BencodeError::OutOfMemory => MetaError::OutOfMemory,
            _ => MetaError::Bencode(fault),
        }
    }
}

impl From<AllocError> for MetaError {
    ghost from_gives = { λ _ e. e ≡ out_of_memory };

    fn from(_error: AllocError) -> Self {
        MetaError::OutOfMemory
    }
}

impl<T: Drop> From<AllocFailed<T>> for MetaError {
    ghost from_gives = { λ _ e. e ≡ out_of_memory };

    fn from(_error: AllocFailed<T>) -> Self {
        MetaError::OutOfMemory
    }
}
