//! Peers that are fetched from at once.
ghost use Rattle.std.specs.Prelude.{[], ◌≡◌, true, false, List, IfErr, IfOk, OnOk};
ghost use Rattle.bt_engine.specs.Leads.{LeadsTo};
ghost use Rattle.bt_files.specs.Ending.{IsEndFault};
ghost use Rattle.bt_machine.specs.Report.{all_complete};
ghost use Rattle.bt_swarm.specs.Passing.{Passing};
ghost use Rattle.bt_files.specs.Waiting.{TakesInAllWaiting};
ghost use Rattle.bt_together.specs.Together.{FailsAtOnce, SwarmsAndTakesIn};

use bt_check::Fault;
use bt_disk::Disk;
use bt_engine::Engine;
use bt_files::{adopt_waiting, finish, flush_fault};
use bt_session::Flushing;
use bt_swarm::{Gate, run_swarm};
use bt_tree::NodeHash;
use std::alloc::Global;

/// Fetches from all connections of a gate at once, 64 at most, until all files are complete, or nobody is there and nobody
/// is to come. All is put on the devices, and into the log, after so many turns of all together, and behind the last; or
/// never. Then what came without hashes is taken in. Says whether blocks are missing still though some came so: the peers
/// may be dialled once more then, since none was asked for a block while it waited for its hash.
///
/// Errors: a flush is refused, and then all go at once; a file can't be read, and then what was taken in before is put on
/// the devices all the same; out of memory.
pub fn fetch_at_once<D: Disk + Drop, H: NodeHash, G: Gate>(
    alloc: Global,
    engine: &mut Engine<D, H>,
    gate: &mut G,
    flushing: Flushing,
) -> Result<bool, Fault>
    requires no_peer { engine.old.state.peers ≡ [] }
    requires unwaited { G.waits gate.old ≡ 0 }
    ensures fetched { OnOk result (SwarmsAndTakesIn D.conduct H.digest
        (G.is_shut gate.new) (G.waits gate.new) engine.old engine.new) }
    ensures lacks { IfOk result (λ again. again ≡ true → all_complete engine.new.state ≡ false) }
    ensures gone { engine.new.state.peers ≡ [] }
    ensures led { (passed : List Passing) × G.leads gate.old passed gate.new }
    ensures cause { IfErr result (FailsAtOnce D.conduct H.digest engine.old) }
    ensures run { LeadsTo D.conduct H.digest engine.old engine.new }
    ensures fault { IfErr result (IsEndFault engine.old.log) }
{
    if let Err(error) = run_swarm(alloc, engine, gate, true, flushing) {
        return Err(flush_fault(error));
    }
    take_in(engine)
}

/// Takes in what came without hashes. Gives whether blocks are missing still though some came so. Errors: a read
/// failed, or out of memory; what was taken in before is flushed all the same.
fn take_in<D: Disk + Drop, H: NodeHash>(engine: &mut Engine<D, H>) -> Result<bool, Fault>
    requires no_peer { engine.old.state.peers ≡ [] }
    ensures taken_in { OnOk result (TakesInAllWaiting D.conduct H.digest engine.old engine.new) }
    ensures lacks { IfOk result (λ again. again ≡ true → all_complete engine.new.state ≡ false) }
    ensures gone { engine.new.state.peers ≡ [] }
    ensures cause { IfErr result (FailsAtOnce D.conduct H.digest engine.old) }
    ensures run { LeadsTo D.conduct H.digest engine.old engine.new }
    ensures fault { IfErr result (IsEndFault engine.old.log) }
{
    let waits = has_waiting(engine);
    match adopt_waiting(engine) {
        Ok(()) => Ok(waits && !engine.is_complete() && has_missing(engine)),
        Err(fault) => {
            let _ = finish(engine);
            Err(fault)
        }
    }
}

/// Whether a block of any file waits for its hash.
fn has_waiting<D: Disk + Drop, H: NodeHash>(engine: &Engine<D, H>) -> bool {
    let count = engine.torrent().files().len() as u32;
    for file in 0..count {
        if let Some(report) = engine.report(file) {
            if report.waiting > 0 {
                return true;
            }
        }
    }
    false
}

/// Whether a block of any file is missing.
fn has_missing<D: Disk + Drop, H: NodeHash>(engine: &Engine<D, H>) -> bool {
    let count = engine.torrent().files().len() as u32;
    for file in 0..count {
        if let Some(report) = engine.report(file) {
            if report.marked.saturating_add(report.waiting) < report.blocks {
                return true;
            }
        }
    }
    false
}
