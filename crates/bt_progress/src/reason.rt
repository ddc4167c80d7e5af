//! Why calls of the system fail, in words.
ghost use Rattle.std.specs.Prelude.{◌≡◌, IsSome};
ghost use Rattle.std.specs.IoError.{error_kind};
ghost use Rattle.bt_progress.specs.FileCall.{reason_of};
ghost use Rattle.bt_progress.specs.Reason.{kind_reason};

use std::io::{Error, ErrorKind};

/// Why a call of the system failed, in the words that errno(3) has for it: none where nothing more is known than that
/// it failed. Of an error that has no kind of its own no clause says them.
pub fn system_reason(error: &Error) -> Option<&'static str>
    ensures { IsSome (kind_reason (error_kind error.now))
        → reason_of result ≡ kind_reason (error_kind error.now) }
{
    match kind_reason(error.kind()) {
        Some(reason) => Some(reason),
        None => code_reason(error.raw_os_error()),
    }
}

/// The words for a kind of error.
fn kind_reason(kind: ErrorKind) -> Option<&'static str>
    ensures { reason_of result ≡ kind_reason kind }
{
    match kind {
        ErrorKind::NotFound => Some("no such file or directory"),
        ErrorKind::PermissionDenied => Some("permission denied"),
        ErrorKind::AlreadyExists => Some("file exists"),
        ErrorKind::NotADirectory => Some("not a directory"),
        ErrorKind::IsADirectory => Some("is a directory"),
        ErrorKind::DirectoryNotEmpty => Some("directory not empty"),
        ErrorKind::ReadOnlyFilesystem => Some("read-only file system"),
        ErrorKind::FilesystemLoop => Some("too many levels of symbolic links"),
        ErrorKind::StorageFull => Some("no space left on device"),
        ErrorKind::QuotaExceeded => Some("disk quota exceeded"),
        ErrorKind::FileTooLarge => Some("file too large"),
        ErrorKind::InvalidFilename => Some("file name too long, or not UTF-8"),
        ErrorKind::InvalidInput => Some("invalid argument"),
        ErrorKind::AddrInUse => Some("address already in use"),
        ErrorKind::AddrNotAvailable => Some("no address of this machine"),
        ErrorKind::NetworkUnreachable => Some("network is unreachable"),
        ErrorKind::TimedOut => Some("timed out"),
        _ => None,
    }
}

/// The words for a number of Linux, of an error that has no kind of its own.
fn code_reason(code: Option<i32>) -> Option<&'static str> {
    match code {
        Some(5) => Some("input/output error"),
        Some(6) => Some("no such device or address"),
        Some(9) => Some("bad file descriptor"),
        Some(23 | 24) => Some("too many open files"),
        _ => None,
    }
}
