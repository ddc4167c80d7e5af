//! The end of a fetch.
ghost use Rattle.std.specs.Prelude.{IfErr, IfOk};
ghost use Rattle.bt_engine.specs.Leads.{LeadsTo};
ghost use Rattle.bt_files.specs.Ending.{IsConcluded, IsEndFault};
ghost use Rattle.bt_files.specs.Store.{FailsWithFlush};

use crate::report::write_report;
use crate::store::finish;
use bt_check::Fault;
use bt_disk::Disk;
use bt_engine::Engine;
use bt_tree::NodeHash;
use std::alloc::Global;
use std::io::Write;

/// Flushes an engine, as `finish` does, and then writes how far its files are. Gives the status of the program: 0
/// where all files are complete, else 1. Where the flush is refused, nothing is written.
///
/// Errors: `Device` where a device of the engine, or the writer, fails; `LogFull` where the log would get longer than
/// a log may be; `OutOfMemory`.
pub fn conclude<D: Disk + Drop, H: NodeHash, W: Write>(
    alloc: Global,
    engine: &mut Engine<D, H>,
    writer: &mut W,
) -> Result<u8, Fault>
    ensures concluded { IfOk result (λ status. IsConcluded D.conduct H.digest engine.old
        (W.contents writer.old) (W.contents writer.new) status engine.new) }
    ensures failed { IfErr result
        (λ fault. FailsWithFlush D.conduct H.digest engine.old fault engine.new) }
    ensures run { LeadsTo D.conduct H.digest engine.old engine.new }
    ensures fault { IfErr result (IsEndFault engine.old.log) }
{
    finish(engine)?;
    let complete = write_report(alloc, engine, writer)?;
    Ok(if complete { 0 } else { 1 })
}
