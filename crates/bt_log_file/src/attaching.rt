//! A log on a device, whose refusals are faults of the program.
ghost use Rattle.std.specs.Prelude.{◌≡◌, IfErr, IfOk};
ghost use Rattle.bt_resume.specs.ResumeLog.{IsAttached};
ghost use Rattle.bt_log_file.specs.Attaching.{IsAttachFault, log_fault};
ghost use Rattle.bt_log_file.specs.Keeping.{IsKeptIfEmpty};
ghost use Rattle.bt_log_file.specs.OtherFiles.{IsFree};

use crate::log_folder::{LogFolder, OpenedLog};
use crate::other_files::OtherFiles;
use bt_check::Fault;
use bt_disk::Disk;
use bt_folder::Lookup;
use bt_resume::{LogError, ResumeLog};

/// Opens the log of a torrent in a file that was opened, and is none of those that it may not be. Where the file has no
/// bytes its name is kept before. A device that is refused is let go of, which closes its file.
pub(crate) fn attach_log<R: LogFolder + Lookup, D: Disk + Drop>(
    rt: &R,
    others: &OtherFiles<'_>,
    opened: OpenedLog<'_, D>,
) -> Result<ResumeLog<D>, Fault>
    requires free { IsFree
        (R.tells rt.now) (R.lists rt.now) others.now opened.opening.identity opened.path.now }
    requires kept { IsKeptIfEmpty (R.leads rt.now) (R.keeps rt.now) opened.opening opened.path.now }
    ensures log { IfOk result
        (IsAttached D.conduct others.now.torrent.now.infohash opened.entry.disk) }
    ensures fault { let file = opened.entry
        in let free = IsFree (R.tells rt.now) (R.lists rt.now) others.now file.opening.identity
        file.path.now
        in IfErr result (IsAttachFault D.conduct others.now.torrent.now.infohash free file.disk) }
{
    match ResumeLog::attach(rt.alloc(), opened.disk, others.torrent.infohash()) {
        Ok(log) => Ok(log),
        Err(refused) => Err(log_fault(refused.cause)),
    }
}

/// Why the program ends where a log is not read.
fn log_fault(cause: LogError) -> Fault
    ensures { result ≡ log_fault cause }
{
    match cause {
        LogError::OtherTorrent => Fault::OtherTorrent,
        LogError::TooLong => Fault::LogTooLong,
        LogError::Device => Fault::Device,
        LogError::OutOfMemory => Fault::OutOfMemory,
    }
}
