//! Connections that are served at once.
ghost use Rattle.std.specs.Prelude.{[], ◌≡◌, IfErr, OnOk};
ghost use Rattle.bt_engine.specs.Leads.{LeadsTo};
ghost use Rattle.bt_files.specs.Ending.{IsEndFault};
ghost use Rattle.bt_together.specs.Together.{FailsAtOnce, HasServedTogether};

use crate::ending::sync_behind;
use crate::numbered::NumberedGate;
use bt_check::Fault;
use bt_disk::Disk;
use bt_engine::Engine;
use bt_files::flush_fault;
use bt_session::Flushing;
use bt_swarm::{Gate, run_swarm};
use bt_tree::NodeHash;
use std::alloc::Global;
use std::io::Write;

/// Serves `count` connections of a gate, as many at once as come, 64 at most, and writes as each goes how it ended with
/// it. All is put on the devices, and into the log, after so many turns of all together, or never on the way; at the end
/// it is always. Where a line can't be written, nobody new is taken, and who is there is served.
///
/// Errors: a flush is refused, and then all go at once; a line could not be written; fewer could be taken; out of memory.
pub fn serve_together<D: Disk + Drop, H: NodeHash, G: Gate, W: Write>(
    alloc: Global,
    engine: &mut Engine<D, H>,
    gate: &mut G,
    count: u64,
    flushing: Flushing,
    writer: &mut W,
) -> Result<(), Fault>
    requires no_peer { engine.old.state.peers ≡ [] }
    requires unwaited { G.waits gate.old ≡ 0 }
    ensures served { OnOk result (HasServedTogether D.conduct H.digest count
        engine.old (W.contents writer.old) (W.contents writer.new) engine.new) }
    ensures cause { IfErr result (FailsAtOnce D.conduct H.digest engine.old) }
    ensures run { LeadsTo D.conduct H.digest engine.old engine.new }
    ensures fault { IfErr result (IsEndFault engine.old.log) }
{
    let mut numbered = NumberedGate::new(alloc, gate, count, writer);
    if let Err(error) = run_swarm(alloc, engine, &mut numbered, false, flushing) {
        return Err(flush_fault(error));
    }
    let told = numbered.outcome();
    sync_behind(engine, told)
}
