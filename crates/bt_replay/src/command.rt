//! The command `replay`, over a reader and writers.
ghost use Rattle.std.specs.Prelude.{◌≡◌, ◌⊎◌, IfErr, OnOk};
ghost use Rattle.std.specs.Io.KnownBytes.{Keeps};
ghost use Rattle.bt_session.specs.Failures.{OnlyAfterFailure};
ghost use Rattle.bt_replay.specs.Command.{IsReplay, status_after};

use crate::fault::ReplayFault;
use crate::reader::read_script;
use crate::script::run_script;
use bt_session::{WatchedReader, WatchedWriter};
use std::alloc::Global;
use std::io::Write;

/// Reads a script and runs it, writes what tells of its lines, and gives the status that the program exits
/// with. Where it ends before the script does, it says why, on `faults`; where that can't be said, there is
/// the status alone.
pub fn replay<R: WatchedReader, W: WatchedWriter, E: Write>(
    alloc: Global,
    reader: &mut R,
    writer: &mut W,
    faults: &mut E,
) -> u8
    ensures answer { IsReplay (R.remaining reader.old) (R.remaining reader.new)
        (W.contents writer.old) (W.contents writer.new) result }
    ensures faultless { result ≡ 0 → Keeps (E.contents faults.old) (E.contents faults.new) }
    ensures failed { result ≡ 3 → R.has_failed reader.new ⊎ W.has_failed writer.new }
    ensures flushed { result ≡ 0 → W.is_flushed writer.new }
{
    match read_and_run(alloc, reader, writer) {
        Ok(()) => 0,
        Err(fault) => {
            let _ = writeln!(faults, "btseed: {fault}");
            fault.status()
        }
    }
}

/// Reads a script and runs it.
fn read_and_run<R: WatchedReader, W: WatchedWriter>(
    alloc: Global,
    reader: &mut R,
    writer: &mut W,
) -> Result<(), ReplayFault>
    ensures answer { IsReplay (R.remaining reader.old) (R.remaining reader.new)
        (W.contents writer.old) (W.contents writer.new) (status_after result) }
    ensures read_fault { IfErr result (OnlyAfterFailure ReplayFault.Read
        (R.has_failed reader.new)) }
    ensures write_fault { IfErr result (OnlyAfterFailure ReplayFault.Write
        (W.has_failed writer.new)) }
    ensures flushed { OnOk result (W.is_flushed writer.new) }
{
    let script = read_script(alloc, reader)?;
    run_script(alloc, &script, writer)
}
