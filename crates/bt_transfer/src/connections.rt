//! Connections that are served one after the other, each with its line.
ghost use Rattle.std.specs.Prelude.{[], ◌≡◌, ◌⊎◌, Ok, Err, IfErr, IfOk, OnOk};
ghost use Rattle.std.specs.Io.KnownBytes.{Appends};
ghost use Rattle.bt_check.specs.Fault.{device, out_of_memory};
ghost use Rattle.bt_files.specs.Ending.{IsEndFault};
ghost use Rattle.bt_engine.specs.Leads.{LeadsTo};
ghost use Rattle.bt_transfer.specs.Connections.{FailsToServe, HasServed, MeetsAndSyncs};
ghost use Rattle.bt_transfer.specs.OverTcp.{MeetsOverTcp};
ghost use Rattle.bt_together.specs.ServedLines.{served_line};

use crate::reception::Reception;
use bt_check::Fault;
use bt_disk::Disk;
use bt_engine::Engine;
use bt_files::finish;
use bt_progress::Watch;
use bt_session::PeerEnd;
use bt_sockets::{IDLE_SECONDS, serve};
use bt_together::tell_served;
use bt_tree::NodeHash;
use std::alloc::Global;
use std::io::Write;
use std::net::Net;
use std::time::{Clock, Duration};

/// Serves `count` connections, one after the other, whatever came of those before. After each connection it flushes
/// the engine, and then writes how the connection ended. Errors: those of `serve_and_sync`.
pub(crate) fn serve_each<D: Disk + Drop, H: NodeHash, N: Net + Clock, P: Watch, W: Write>(
    alloc: Global,
    reception: &Reception<'_, N, P>,
    engine: &mut Engine<D, H>,
    count: u64,
    writer: &mut W,
) -> Result<(), Fault>
    requires no_peer { engine.old.state.peers ≡ [] }
    ensures served { OnOk result (HasServed (MeetsAndSyncs D.conduct H.digest) count
        engine.old (W.contents writer.old) (W.contents writer.new) engine.new) }
    ensures kept { IfErr result
        (λ fault. FailsToServe D.conduct H.digest engine.old fault engine.new) }
    ensures run { LeadsTo D.conduct H.digest engine.old engine.new }
    ensures fault { IfErr result (IsEndFault engine.old.log) }
{
    for number in 0..count {
        let next = number + 1;
        serve_and_sync(alloc, reception, engine, next, writer)?;
    }
    Ok(())
}

/// Serves one connection, flushes the engine, and then writes a line with the connection's number and how it ended.
/// The engine is flushed also where no connection could be taken. Errors: no connection could be taken; a device or
/// the writer failed; out of memory; the log is full. A refused flush is the fault that is told, whatever else
/// failed; the line is written first.
fn serve_and_sync<D: Disk + Drop, H: NodeHash, N: Net + Clock, P: Watch, W: Write>(
    alloc: Global,
    reception: &Reception<'_, N, P>,
    engine: &mut Engine<D, H>,
    number: u64,
    writer: &mut W,
) -> Result<PeerEnd, Fault>
    requires no_peer { engine.old.state.peers ≡ [] }
    ensures served { IfOk result
        (λ end. MeetsAndSyncs D.conduct H.digest engine.old end engine.new) }
    ensures told { IfOk result
        (λ end. Appends (W.contents writer.old) (W.contents writer.new) (served_line number end)) }
    ensures gone { OnOk result (engine.new.state.peers ≡ []) }
    ensures kept { IfErr result
        (λ fault. FailsToServe D.conduct H.digest engine.old fault engine.new) }
    ensures run { LeadsTo D.conduct H.digest engine.old engine.new }
    ensures fault { IfErr result (IsEndFault engine.old.log) }
{
    let met = serve_one(alloc, reception, engine);
    // before the line is written, which may fail, and is waited for where nobody reads it
    let kept = finish(engine);
    let told = tell_met(alloc, number, met, writer);
    kept?;
    told
}

/// Takes one connection and serves it. Errors: none could be taken.
fn serve_one<D: Disk + Drop, H: NodeHash, N: Net + Clock, P: Watch>(
    alloc: Global,
    reception: &Reception<'_, N, P>,
    engine: &mut Engine<D, H>,
) -> Result<PeerEnd, Fault>
    requires no_peer { engine.old.state.peers ≡ [] }
    ensures served { IfOk result
        (λ end. MeetsOverTcp D.conduct H.digest engine.old end engine.new) }
    ensures gone { engine.new.state.peers ≡ [] }
    ensures run { LeadsTo D.conduct H.digest engine.old engine.new }
    ensures fault { IfErr result (λ fault. fault ≡ device) }
{
    let idle = Duration::from_secs(IDLE_SECONDS);
    serve(
        reception.net,
        alloc,
        engine,
        reception.listener,
        idle,
        reception.passage,
        reception.watch,
    )
}

/// Writes the line of the connection of a number, if there was one, and gives how it ended. Errors: why there was no
/// connection; the writer failed; out of memory.
fn tell_met<W: Write>(
    alloc: Global,
    number: u64,
    met: Result<PeerEnd, Fault>,
    writer: &mut W,
) -> Result<PeerEnd, Fault>
    ensures same { IfOk result (λ end. met ≡ Ok end) }
    ensures told { IfOk result
        (λ end. Appends (W.contents writer.old) (W.contents writer.new) (served_line number end)) }
    ensures fault { IfErr result
        (λ fault. (fault ≡ device) ⊎ (fault ≡ out_of_memory) ⊎ (met ≡ Err fault)) }
{
    let end = met?;
    tell_served(alloc, number, end, writer)?;
    Ok(end)
}
