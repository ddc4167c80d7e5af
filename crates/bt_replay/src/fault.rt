//! Why a replay ends before its script does.
ghost use Rattle.std.specs.Prelude.{◌≡◌};
ghost use Rattle.bt_replay.specs.Fault.{status_of, out_of_memory};

use bt_meta::MetaError;
use std::alloc::{AllocError, AllocFailed};
use thiserror::Error;

/// Why a replay ends before its script does, as it is told on standard error.
#[derive(Clone, Copy, Debug, PartialEq, Eq, Error)]
pub enum ReplayFault {
    /// The line of this number, counted from 1, can't stand there.
    #[error("line {0}")]
    Line(u64),
    /// The torrent is refused.
    #[error("{0}")]
    Torrent(MetaError),
    /// The script could not be read.
    #[error("device fault")]
    Read,
    /// What tells of its lines could not be written.
    #[error("device fault")]
    Write,
    #[error("out of memory")]
    OutOfMemory,
}

impl ReplayFault {
    /// The status that the program exits with: 2 where the script is refused, 3 for a reader or a writer that
    /// failed, 4 for out of memory.
    pub fn status(self) -> u8
        ensures { result ≡ status_of self }
    {
        match self {
            ReplayFault::Line(_) | ReplayFault::Torrent(_) => 2,
            ReplayFault::Read | ReplayFault::Write => 3,
            ReplayFault::OutOfMemory => 4,
        }
    }
}

impl From<AllocError> for ReplayFault {
    ghost from_gives = { λ _ fault. fault ≡ out_of_memory };

    fn from(_error: AllocError) -> Self {
        ReplayFault::OutOfMemory
    }
}

impl<T: Drop> From<AllocFailed<T>> for ReplayFault {
    ghost from_gives = { λ _ fault. fault ≡ out_of_memory };

    fn from(_error: AllocFailed<T>) -> Self {
        ReplayFault::OutOfMemory
    }
}
