//! Connections that are served at once.
ghost use Rattle.std.specs.Prelude.{[], ◌≡◌, ◌⊎◌, IfErr, OnOk};
ghost use Rattle.bt_check.specs.Fault.{device, out_of_memory};
ghost use Rattle.bt_files.specs.Ending.{IsEndFault};
ghost use Rattle.bt_engine.specs.Leads.{LeadsTo};
ghost use Rattle.bt_together.specs.Together.{FailsAtOnce, HasServedTogether};

use crate::reception::Reception;
use bt_check::Fault;
use bt_disk::Disk;
use bt_engine::Engine;
use bt_gate::{Seats, TcpGate};
use bt_progress::Watch;
use bt_session::Flushing;
use bt_together::serve_together;
use bt_tree::NodeHash;
use std::alloc::Global;
use std::io::{self, ErrorKind, Write};
use std::net::Net;
use std::time::Clock;

/// How many connections there is room for at a time: as many as an engine takes.
pub(crate) const PLACES: usize = 64;

/// Serves `count` connections, up to 64 at once, and writes how each ended as it goes. The engine is flushed after so
/// many turns of all together as `flushing` says, whenever nobody is there any more, and at the end.
pub(crate) fn serve_at_once<D: Disk + Drop, H: NodeHash, N: Net + Clock, P: Watch, W: Write>(
    alloc: Global,
    reception: &Reception<'_, N, P>,
    engine: &mut Engine<D, H>,
    count: u64,
    flushing: Flushing,
    writer: &mut W,
) -> Result<(), Fault>
    requires no_peer { engine.old.state.peers ≡ [] }
    ensures served { OnOk result (HasServedTogether D.conduct H.digest count
        engine.old (W.contents writer.old) (W.contents writer.new) engine.new) }
    ensures cause { IfErr result (FailsAtOnce D.conduct H.digest engine.old) }
    ensures run { LeadsTo D.conduct H.digest engine.old engine.new }
    ensures fault { IfErr result (IsEndFault engine.old.log) }
{
    let seats = Seats::new(alloc, PLACES)?;
    let mut gate = match TcpGate::serving(
        alloc,
        reception.net,
        reception.watch,
        reception.listener,
        reception.passage,
        &seats,
        count,
    ) {
        Ok(gate) => gate,
        Err(error) => return Err(gate_fault(&error)),
    };
    let served = serve_together(alloc, engine, &mut gate, count, flushing, writer);
    gate.take_leave();
    served
}

/// The fault that is told where there can be no gate.
pub(crate) fn gate_fault(error: &io::Error) -> Fault
    ensures { (result ≡ device) ⊎ (result ≡ out_of_memory) }
{
    match error.kind() {
        ErrorKind::OutOfMemory => Fault::OutOfMemory,
        _ => Fault::Device,
    }
}
