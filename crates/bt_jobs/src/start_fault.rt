//! Why a part of a check does not run that has the torrent.
ghost use Rattle.std.specs.Prelude.{◌≡◌, ◌⊎◌, IfErr, IfOk};
ghost use Rattle.std.specs.Process.{exit_code};
ghost use Rattle.bt_check.specs.Fault.{device, out_of_memory};
ghost use Rattle.bt_jobs.specs.Starts.{IsEarlyEnd, start_fault, unstarted};

use crate::children::was_short_of_memory;
use bt_check::Fault;
use std::io::{self, ErrorKind};
use std::process::ExitStatus;

/// Why a part does not run that has the torrent.
#[derive(Clone, Copy, Debug)]
pub enum StartFault {
    /// It could not be started.
    NotStarted,
    /// It failed before it had taken the whole torrent.
    Failed,
    /// Memory was short to start it, or it was itself short of memory before that.
    OutOfMemory,
}

impl StartFault {
    /// The fault of the program that it comes to.
    pub(crate) fn fault(self) -> Fault
        ensures fault { result ≡ start_fault self }
        ensures either { (result ≡ device) ⊎ (result ≡ out_of_memory) }
    {
        match self {
            StartFault::NotStarted => Fault::Device,
            StartFault::Failed => Fault::Device,
            StartFault::OutOfMemory => Fault::OutOfMemory,
        }
    }
}

/// Why a part could not be started, by the kind of the error of the call that was to start it, which takes memory.
pub(crate) fn unstarted(kind: ErrorKind) -> StartFault
    ensures { result ≡ unstarted kind }
{
    match kind {
        ErrorKind::OutOfMemory => StartFault::OutOfMemory,
        _ => StartFault::NotStarted,
    }
}

/// Why a part did not take the whole torrent, by how it ended, where the system tells that.
pub(crate) fn early_end(ended: io::Result<ExitStatus>) -> StartFault
    ensures known { IfOk ended (λ status. IsEarlyEnd (exit_code status) result) }
    ensures unknown { IfErr ended (λ _. result ≡ StartFault.Failed) }
{
    match ended {
        Ok(status) if was_short_of_memory(status) => StartFault::OutOfMemory,
        Ok(_) | Err(_) => StartFault::Failed,
    }
}
