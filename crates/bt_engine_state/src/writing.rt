//! Calls of a log.
ghost use Rattle.std.specs.Prelude.{◌≡◌, List};
ghost use Rattle.bt_machine.specs.Flush.{flush_error};
ghost use Rattle.bt_machine.specs.LogCalls.{LogCall, AreLogCalls};
ghost use Rattle.bt_engine_state.specs.Pending.{AreWritable};
ghost use Rattle.bt_engine_state.specs.Writing.{AppendsHints};

use bt_disk::Disk;
use bt_machine::FlushError;
use bt_resume::{AppendError, Hint, ResumeLog};

/// Appends hints to a log, in their order, up to the first that is refused.
pub(crate) fn append_all<D: Disk + Drop>(
    hints: &[Hint],
    log: &mut ResumeLog<D>,
) -> Result<(), AppendError>
    requires { AreWritable hints.now }
    ensures { (calls : List LogCall)
        × AreLogCalls D.conduct log.old calls log.new
        × AppendsHints hints.now calls result }
{
    for hint in hints {
        log.append(hint)?;
    }
    Ok(())
}

/// What a flush answers where a hint was refused.
pub(crate) fn flush_error(cause: AppendError) -> FlushError
    ensures { result ≡ flush_error cause }
{
    match cause {
        AppendError::Device => FlushError::Device,
        AppendError::Full => FlushError::LogFull,
    }
}
