//! Reading a script.
ghost use Rattle.std.specs.Prelude.{◌≡◌, ◌<◌, length, IfErr, IfOk, OnErr};
ghost use Rattle.std.specs.Io.KnownBytes.{Keeps};
ghost use Rattle.bt_session.specs.Failures.{OnlyAfterFailure};
ghost use Rattle.bt_replay.specs.Fault.{read_fault};
ghost use Rattle.bt_replay.specs.Reader.{GivesScript, IsUnread};
ghost use Rattle.bt_replay.specs.ReaderSteps.{GivesSome};

use crate::fault::ReplayFault;
use bt_session::WatchedReader;
use std::alloc::Global;
use std::io::ErrorKind;

/// How many bytes of a script are read.
pub const MAX_SCRIPT_LENGTH: usize = 1 << 24;

/// How many bytes are asked for at a time.
const READ_LEN: usize = 1 << 14;

/// Reads a script: all bytes that the reader has, but no more than a script may have, 2^24. Errors: the reader
/// failed; out of memory.
pub fn read_script<R: WatchedReader>(alloc: Global, reader: &mut R) -> Result<Vec<u8>, ReplayFault>
    ensures script { IfOk result
        (λ script. GivesScript (R.remaining reader.old) (R.remaining reader.new) script.items) }
    ensures unread { IfErr result (IsUnread (R.remaining reader.old) (R.remaining reader.new)) }
    ensures read_fault { IfErr result (OnlyAfterFailure ReplayFault.Read
        (R.has_failed reader.new)) }
{
    let mut script = Vec::new(alloc);
    let mut buffer = [0; READ_LEN];
    'reads: while script.len() < MAX_SCRIPT_LENGTH {
        let wanted = READ_LEN.min(MAX_SCRIPT_LENGTH - script.len());
        let run = &mut buffer[..wanted];
        let count = read_some(reader, run)?;
        if count == 0 {
            return Ok(script);
        }
        script.extend_from_slice(&run[..count])?;
    }
    Ok(script)
}

/// Reads once, and says how many bytes came: none where there are no more. A read that was interrupted is
/// made again. Errors: the reader failed, and none of its bytes is lost.
fn read_some<R: WatchedReader>(reader: &mut R, buffer: &mut [u8]) -> Result<usize, ReplayFault>
    requires { 0 < length buffer.old }
    ensures given { IfOk result
        (λ count. GivesSome (R.remaining reader.old) (R.remaining reader.new) count buffer.new) }
    ensures kept { OnErr result (Keeps (R.remaining reader.old) (R.remaining reader.new)) }
    ensures fault { IfErr result (λ fault. fault ≡ read_fault) }
    ensures failed { OnErr result (R.has_failed reader.new) }
{
    // A bound, so that it ends whatever the system gives.
    for _ in 0..u64::MAX {
        match reader.read_once(buffer) {
            Ok(count) => return Ok(count),
            Err(error) if error.kind() == ErrorKind::Interrupted => {}
            Err(_) => return Err(ReplayFault::Read),
        }
    }
    Err(ReplayFault::Read)
}
