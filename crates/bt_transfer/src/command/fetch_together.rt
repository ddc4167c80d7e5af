//! A fetch from all peers at once.
ghost use Rattle.std.specs.Prelude.{[], ◌≡◌, ◌⊎◌, true, false, length, IfErr, IfOk, OnOk};
ghost use Rattle.bt_files.specs.Ending.{IsEndFault};
ghost use Rattle.bt_machine.specs.Report.{all_complete};
ghost use Rattle.bt_engine.specs.Leads.{LeadsTo};
ghost use Rattle.bt_files.specs.OpenFolder.{IsCallFault};
ghost use Rattle.bt_gate.specs.Doors.{undialled};
ghost use Rattle.bt_together.specs.Together.{FailsAtOnce, SwarmsAndTakesIn};
ghost use Rattle.bt_transfer.specs.FetchTogether.{FetchesAtOnce, FetchesAndSyncs, HasFetchedTogether, OnceOrTwice};
ghost use Rattle.bt_transfer.specs.Hearing.{IsHeard};

use crate::at_once::{PLACES, gate_fault};
use crate::hearing::{Bell, hear};
use bt_check::Fault;
use bt_disk::Disk;
use bt_engine::Engine;
use bt_files::{conclude, finish};
use bt_gate::{Dialling, Door, Seats, TcpGate};
use bt_progress::Watch;
use bt_session::{Flushing, PeerEnd};
use bt_sockets::Passage;
use bt_together::{fetch_at_once, tell_peers};
use bt_tree::NodeHash;
use bt_words::Peer;
use std::alloc::{AllocError, Global};
use std::io::Write;
use std::net::Net;
use std::time::Clock;

/// Fetches from all peers at once, and concludes: flushes the engine, and writes how far the files are. Then it hears
/// the bell. Errors: also where the bell rang, since a device refused a write, and not all files are complete.
pub(crate) fn fetch_together<
    D: Disk + Drop,
    H: NodeHash,
    N: Net + Clock,
    P: Watch,
    B: Bell,
    W: Write,
>(
    alloc: Global,
    net: &N,
    watch: &P,
    engine: &mut Engine<D, H>,
    peers: &[Peer<'_>],
    flushing: Flushing,
    passage: Passage<'_>,
    bell: &B,
    writer: &mut W,
) -> Result<u8, Fault>
    requires no_peer { engine.old.state.peers ≡ [] }
    ensures fetched { IfOk result (λ status. HasFetchedTogether D.conduct H.digest peers.now
        engine.old (W.contents writer.old) (W.contents writer.new) status engine.new) }
    ensures heard { OnOk result (IsHeard (B.tells bell.now) (all_complete engine.new.state)) }
    ensures cause { IfErr result (FailsAtOnce D.conduct H.digest engine.old) }
    ensures run { LeadsTo D.conduct H.digest engine.old engine.new }
    ensures fault { IfErr result (IsEndFault engine.old.log) }
{
    let addresses = addresses_of(alloc, peers)?;
    let dialler = Dialler {
        net,
        watch,
        addresses: addresses.as_slice(),
        passage,
    };
    let status = fetch_and_tell(alloc, &dialler, engine, peers, flushing, writer)?;
    hear(bell, engine.is_complete())?;
    Ok(status)
}

/// Fetches from all peers at once, and concludes. After the flush behind the last peer it writes how it ended with
/// each peer that was tried, in their order, also where a fault ends the fetch.
fn fetch_and_tell<D: Disk + Drop, H: NodeHash, N: Net + Clock, P: Watch, W: Write>(
    alloc: Global,
    dialler: &Dialler<'_, N, P>,
    engine: &mut Engine<D, H>,
    peers: &[Peer<'_>],
    flushing: Flushing,
    writer: &mut W,
) -> Result<u8, Fault>
    requires no_peer { engine.old.state.peers ≡ [] }
    requires each { length dialler.now.addresses.now ≡ length peers.now }
    ensures fetched { IfOk result (λ status. HasFetchedTogether D.conduct H.digest peers.now
        engine.old (W.contents writer.old) (W.contents writer.new) status engine.new) }
    ensures cause { IfErr result (FailsAtOnce D.conduct H.digest engine.old) }
    ensures run { LeadsTo D.conduct H.digest engine.old engine.new }
{
    let mut ends = vec![in alloc; PeerEnd::Untried; peers.len()]?;
    let fetched = fetch_and_sync(alloc, dialler, engine, flushing, ends.as_mut_slice());
    dialler.watch.clear();
    let told = tell_peers(alloc, peers, ends.as_slice(), writer);
    fetched?;
    told?;
    conclude(alloc, engine, writer)
}

/// By what peers are dialled, and what stands between them and the engine.
#[derive(Drop)]
struct Dialler<'a, N: Net + Clock, P: Watch> {
    net: &'a N,
    watch: &'a P,
    /// The host of each peer, a name or an address, and the port.
    addresses: &'a [(&'a str, u16)],
    passage: Passage<'a>,
}

/// The host and the port of each peer, in their order.
fn addresses_of<'a>(alloc: Global, peers: &'a [Peer<'a>]) -> Result<Vec<(&'a str, u16)>, AllocError>
    ensures { IfOk result (λ addresses. length addresses.items ≡ length peers.now) }
{
    let mut addresses = Vec::new(alloc);
    for peer in peers {
        addresses.push((peer.host, peer.port))?;
    }
    Ok(addresses)
}

/// Fetches from all peers at once, once or twice, and flushes the engine.
fn fetch_and_sync<D: Disk + Drop, H: NodeHash, N: Net + Clock, P: Watch>(
    alloc: Global,
    dialler: &Dialler<'_, N, P>,
    engine: &mut Engine<D, H>,
    flushing: Flushing,
    ends: &mut [PeerEnd],
) -> Result<(), Fault>
    requires no_peer { engine.old.state.peers ≡ [] }
    requires each { length ends.old ≡ length dialler.now.addresses.now }
    ensures fetched { OnOk result (FetchesAndSyncs D.conduct H.digest
        (length dialler.now.addresses.now)
        engine.old ends.new engine.new) }
    ensures each { length ends.new ≡ length ends.old }
    ensures cause { IfErr result (FailsAtOnce D.conduct H.digest engine.old) }
    ensures run { LeadsTo D.conduct H.digest engine.old engine.new }
{
    fetch_once_or_twice(alloc, dialler, engine, flushing, ends)?;
    finish(engine)
}

/// Fetches from all peers at once. Where blocks are missing then, though some came without their hashes, it dials all
/// of them once more; `ends` are those of the last time.
fn fetch_once_or_twice<D: Disk + Drop, H: NodeHash, N: Net + Clock, P: Watch>(
    alloc: Global,
    dialler: &Dialler<'_, N, P>,
    engine: &mut Engine<D, H>,
    flushing: Flushing,
    ends: &mut [PeerEnd],
) -> Result<(), Fault>
    requires no_peer { engine.old.state.peers ≡ [] }
    requires each { length ends.old ≡ length dialler.now.addresses.now }
    ensures fetched { OnOk result (OnceOrTwice
        (FetchesAtOnce D.conduct H.digest (length dialler.now.addresses.now))
        engine.old ends.new engine.new) }
    ensures each { length ends.new ≡ length ends.old }
    ensures cause { IfErr result (FailsAtOnce D.conduct H.digest engine.old) }
    ensures run { LeadsTo D.conduct H.digest engine.old engine.new }
{
    if fetch_once(alloc, dialler, engine, flushing, ends)? {
        fetch_once(alloc, dialler, engine, flushing, ends)?;
    }
    Ok(())
}

/// Dials all peers, fetches from them at once, and takes in what came without hashes. Gives whether blocks are
/// missing still though something was taken in so.
fn fetch_once<D: Disk + Drop, H: NodeHash, N: Net + Clock, P: Watch>(
    alloc: Global,
    dialler: &Dialler<'_, N, P>,
    engine: &mut Engine<D, H>,
    flushing: Flushing,
    ends: &mut [PeerEnd],
) -> Result<bool, Fault>
    requires no_peer { engine.old.state.peers ≡ [] }
    requires each { length ends.old ≡ length dialler.now.addresses.now }
    ensures fetched { OnOk result (FetchesAtOnce D.conduct H.digest
        (length dialler.now.addresses.now) engine.old ends.new engine.new) }
    ensures lacks { IfOk result (λ again. again ≡ true → all_complete engine.new.state ≡ false) }
    ensures each { length ends.new ≡ length ends.old }
    ensures gone { OnOk result (engine.new.state.peers ≡ []) }
    ensures cause { IfErr result (FailsAtOnce D.conduct H.digest engine.old) }
    ensures run { LeadsTo D.conduct H.digest engine.old engine.new }
{
    let seats = Seats::new(alloc, dialler.addresses.len().min(PLACES))?;
    let mut gate = dial_all(
        alloc,
        dialler.net,
        dialler.watch,
        dialler.addresses,
        dialler.passage,
        &seats,
    )?;
    let fetched = fetch_through(alloc, engine, &mut gate, flushing);
    ends.copy_from_slice(gate.ends());
    gate.take_leave();
    fetched
}

/// Opens a gate from which all peers are dialled. Errors: there can be no gate.
fn dial_all<'a, N: Net + Clock, P: Watch>(
    alloc: Global,
    net: &'a N,
    watch: &'a P,
    addresses: &'a [(&'a str, u16)],
    passage: Passage<'a>,
    seats: &'a Seats,
) -> Result<TcpGate<'a, Dialling<'a, N, P>, N, P>, Fault>
    ensures gate { IfOk result
        (λ gate. gate ≡ record { waits = 0; door = undialled (length addresses.now) }) }
    ensures fault { IfErr result IsCallFault }
{
    match TcpGate::dialling(alloc, net, watch, addresses, passage, seats) {
        Ok(gate) => Ok(gate),
        Err(error) => Err(gate_fault(&error)),
    }
}

/// Fetches from all peers that come through a gate over sockets, by whatever door, and takes in what came without
/// hashes. Gives whether blocks are missing still though something was taken in so.
fn fetch_through<'a, D: Disk + Drop, H: NodeHash, E: Door, C: Clock, P: Watch>(
    alloc: Global,
    engine: &mut Engine<D, H>,
    gate: &mut TcpGate<'a, E, C, P>,
    flushing: Flushing,
) -> Result<bool, Fault>
    requires no_peer { engine.old.state.peers ≡ [] }
    requires unwaited { gate.old.waits ≡ 0 }
    ensures fetched { OnOk result (SwarmsAndTakesIn D.conduct H.digest
        (E.is_shut gate.new.door) gate.new.waits engine.old engine.new) }
    ensures lacks { IfOk result (λ again. again ≡ true → all_complete engine.new.state ≡ false) }
    ensures size { E.size gate.new.door ≡ E.size gate.old.door }
    ensures gone { engine.new.state.peers ≡ [] }
    ensures cause { IfErr result (FailsAtOnce D.conduct H.digest engine.old) }
    ensures run { LeadsTo D.conduct H.digest engine.old engine.new }
{
    fetch_at_once(alloc, engine, gate, flushing)
}
