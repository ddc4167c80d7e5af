//! Why the program ends without a result.
ghost use Rattle.std.specs.Prelude.{◌≡◌};
ghost use Rattle.bt_check.specs.Fault.{status_of, torrent_fault, make_fault, system_fault, out_of_memory, device};

use bt_disk::DeviceFault;
use bt_meta::{MakeError, MetaError};
use std::alloc::{AllocError, AllocFailed};
use std::io::ErrorKind;
use thiserror::Error;

/// Why the program ends without a result, as it says on standard error.
#[derive(Clone, Copy, Debug, PartialEq, Eq, Error)]
pub enum Fault {
    /// A word of the command line is no text.
    #[error("a word of the command line is not UTF-8")]
    Words,
    /// The file that a torrent would be written to is one of those that it would be made of.
    #[error("OUT is one of the files that the torrent would be made of")]
    OutAmongFiles,
    /// The torrent is refused.
    #[error("{0}")]
    Torrent(MetaError),
    /// No torrent is made of the folder.
    #[error("{0}")]
    Make(MakeError),
    /// Two paths of the torrent are one file here.
    #[error("F1 SameFile")]
    SameFile,
    /// The file of the log is one of the torrent's.
    #[error("the file of --log is one of the torrent's files")]
    LogAmongFiles,
    /// The file of the log has bytes, and is no log of this torrent.
    #[error("G1 OtherTorrent")]
    OtherTorrent,
    /// The log is longer than any is written.
    #[error("G2 TooLong")]
    LogTooLong,
    /// The log would become longer than any may.
    #[error("G3 LogFull")]
    LogFull,
    /// A file, or a stream, could not be opened, read or written.
    #[error("device fault")]
    Device,
    #[error("out of memory")]
    OutOfMemory,
}

impl Fault {
    /// The status that the program exits with: 2 where its input is refused, 3 for a device, 4 for memory.
    pub fn status(self) -> u8
        ensures { result ≡ status_of self }
    {
        match self {
            Fault::Words
            | Fault::OutAmongFiles
            | Fault::Torrent(_)
            | Fault::Make(_)
            | Fault::SameFile
            | Fault::LogAmongFiles
            | Fault::OtherTorrent
            | Fault::LogTooLong
            | Fault::LogFull => 2,
            Fault::Device => 3,
            Fault::OutOfMemory => 4,
        }
    }
}

/// The fault of a call of the system that takes memory, by the kind of its error.
pub fn system_fault(kind: ErrorKind) -> Fault
    ensures { result ≡ system_fault kind }
{
    match kind {
        ErrorKind::OutOfMemory => Fault::OutOfMemory,
        _ => Fault::Device,
    }
}

impl From<DeviceFault> for Fault {
    ghost from_gives = { λ _ fault. fault ≡ device };

    fn from(_fault: DeviceFault) -> Self {
        Fault::Device
    }
}

impl From<MetaError> for Fault {
    ghost from_gives = { λ refusal fault. fault ≡ torrent_fault refusal };

    fn from(refusal: MetaError) -> Self {
        match refusal {
            MetaError::OutOfMemory => Fault::OutOfMemory,
            _ => Fault::Torrent(refusal),
        }
    }
}

impl From<MakeError> for Fault {
    ghost from_gives = { λ refusal fault. fault ≡ make_fault refusal };

    fn from(refusal: MakeError) -> Self {
        match refusal {
            MakeError::OutOfMemory => Fault::OutOfMemory,
            _ => Fault::Make(refusal),
        }
    }
}

impl From<AllocError> for Fault {
    ghost from_gives = { λ _ fault. fault ≡ out_of_memory };

    fn from(_error: AllocError) -> Self {
        Fault::OutOfMemory
    }
}

impl<T: Drop> From<AllocFailed<T>> for Fault {
    ghost from_gives = { λ _ fault. fault ≡ out_of_memory };

    fn from(_error: AllocFailed<T>) -> Self {
        Fault::OutOfMemory
    }
}
