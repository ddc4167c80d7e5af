//! The command `fetch`: peers are tried one after the other, or all are fetched from at once, and what came of it is
//! told.
ghost use Rattle.std.specs.Prelude.{[], ◌≡◌, ◌≢◌, ◌⊎◌, All, Bool, Err, List, Option, Ok, is_some, length, IfErr, IfOk, OnOk};
ghost use Rattle.std.specs.Io.KnownBytes.{Keeps};
ghost use Rattle.bt_check.specs.Fault.{log_full, status_of};
ghost use Rattle.bt_files.specs.Ending.{IsEndFault};
ghost use Rattle.bt_files.specs.Loading.{IsLogFull, IsStoreFault};
ghost use Rattle.bt_files.specs.declared.file_use.FileUse.TheVariants.{Fetch};
ghost use Rattle.bt_machine.specs.declared.error.FlushError.{FlushError};
ghost use Rattle.bt_machine.specs.Report.{all_complete};
ghost use Rattle.bt_connection.specs.ShortBlocks.{short_blocks_of};
ghost use Rattle.bt_meta.specs.Torrent.{Metainfo, total_pieces};
ghost use Rattle.bt_session.specs.Peer.{IsFlushedWhere};
ghost use Rattle.bt_resume.specs.ResumeLog.{LogView};
ghost use Rattle.bt_engine.specs.Leads.{LeadsTo};
ghost use Rattle.bt_transfer.specs.Fetch.{EndsFetch, Fetches, HasFetched, HasFetchedOverTcp, IsFetch, TellsInTurn, fetch_flushing, links_by, links_of};
ghost use Rattle.bt_transfer.specs.FetchSteps.{BreaksOff, StopsAmong};
ghost use Rattle.bt_transfer.specs.FullLog.{FindsLogFull, HasFilledLog};
ghost use Rattle.bt_transfer.specs.Hearing.{IsHeard};
ghost use Rattle.bt_transfer.specs.Turns.{TakesInAndSyncs, TakesInBehind, TriesAndTakesIn, link_conduct};
ghost use Rattle.bt_files.specs.Store.{HasBegun, IsFlushFault, IsSameButPending, flush_fault};
ghost use Rattle.bt_files.specs.Waiting.{StopsAtWaiting};

use crate::command::fetch_together::fetch_together;
use crate::device_context::device_context;
use crate::hearing::{Bell, hear};
use crate::named_peers::NamedPeers;
use bt_check::{Fault, Source};
use bt_connection::ShortBlocks;
use bt_devices::Seal;
use bt_disk::Disk;
use bt_engine::{Engine, whole_runs_keep_promises};
use bt_files::{FileUse, adopt_waiting, begin_fetching, conclude, finish, flush_fault, load_store};
use bt_progress::Watch;
use bt_session::{Flushing, Link, PeerEnd, meet_peer};
use bt_sockets::{IDLE_SECONDS, Passage, SESSION_TURNS, Shared, TcpLink};
use bt_together::tell_peer;
use bt_tree::NodeHash;
use bt_words::Peer;
use std::alloc::{AllocError, Global};
use std::io::Write;
use std::net::Net;
use std::rt::Files;
use std::time::{Clock, Duration};

/// After how many turns with a peer a fetch with a log flushes its engine, so that little has to come again where the
/// fetch is killed. A turn takes in what one read from the peer gives, 16 KiB at most: so at most 32 MiB come between
/// two flushes. It is not more often, since each turn may end a small file, which is synced for itself, and meanwhile
/// the peer waits and may give up.
pub(crate) const FLUSH_TURNS: u32 = 2048;

/// After how many turns of all peers together a fetch from many at once flushes its engine. Here a turn takes in up
/// to nine reads, 144 KiB at most; and whether a flush is due is looked for once a round, of up to 64 turns. So up to
/// 227 turns pass between two flushes, in which at most 32 MiB come.
const TOGETHER_TURNS: u32 = 164;

/// Opens the store of a torrent's files in the folder `dir`, as `load_store` does; fetches from the peers until all
/// files are complete; and reports how far the files are. Gives the status of the program: 0 where all files are
/// complete, else 1.
///
/// One after the other: behind each peer it takes in what came without hashes, flushes the engine, and then writes
/// how it ended with that peer. At once: it fetches from up to 64 peers, the next one as one goes. Behind all of them
/// it takes in what came without hashes; where something did and blocks are missing still, it dials all of them once
/// more. Then it flushes the engine, and writes how it ended with each peer that was tried, in the order in which
/// they were named.
///
/// With a log, whose path is `log`, it flushes the engine also before it dials the first peer, and then on the way:
/// after each 2,048 turns with a peer and right after each peer; or after each 164 turns of all together and after
/// all of them. A flush comes also where a file can't be read.
///
/// The watch is told how many bytes are read of what the files have, and then how many are written of what they lack.
///
/// A session ends where a device refuses a write. Where that came in a session, and not all files are complete, the
/// device's fault is told after the report.
///
/// Errors: the torrent or the log is refused, or two paths of the torrent are one file, and then nothing is written;
/// a device or the writer failed; out of memory; the log is full.
pub fn fetch<R: Files + AllocGlobal + Clone + Drop, N: Net + Clock, P: Watch, W: Write>(
    rt: &R,
    net: &N,
    watch: &P,
    source: Source<'_>,
    dir: &str,
    named: NamedPeers<'_>,
    log: Option<&str>,
    writer: &mut W,
) -> Result<u8, Fault>
    ensures done { IfOk result (λ status. IsFetch source.entry.is_info dir.now
        named.entry.are_together named.entry.peers.now log.entry
        (W.contents writer.old) (W.contents writer.new) status) }
    ensures fault { IfErr result (λ fault.
        IsStoreFault source.entry.is_info Fetch log.entry fault ⊎ IsLogFull log.entry fault) }
    ensures refused { IfErr result (λ fault. status_of fault ≡ 2 → fault ≢ log_full
        → Keeps (W.contents writer.old) (W.contents writer.new)) }
    ensures full { IfErr result (λ fault. fault ≡ log_full
        → HasFilledLog source.entry.is_info Fetch dir.now log.entry) }
{
    let shared = Shared::new(rt.alloc())?;
    // It is never closed: what comes is written, and so is the log.
    let seal = Seal::new();
    let context = device_context(FileUse::Fetch, &shared, &seal, &seal);
    let engine = load_store(rt, watch, context, source, dir, log)?;
    fetch_store(rt.alloc(), net, watch, engine, &shared, named, log, writer)
}

/// Fetches from peers over TCP for an engine, which it takes and which began with a torrent, and tells how it went.
/// Where `log` is the path of the engine's log, the engine is flushed before the peers and among them. What stands
/// before the sockets is made for the engine's torrent.
fn fetch_store<D: Disk + Drop, H: NodeHash, N: Net + Clock, P: Watch, W: Write>(
    alloc: Global,
    net: &N,
    watch: &P,
    engine: Engine<D, H>,
    shared: &Shared,
    named: NamedPeers<'_>,
    log: Option<&str>,
    writer: &mut W,
) -> Result<u8, Fault>
    requires no_peer { engine.state.peers ≡ [] }
    ensures fetched { (torrent : Metainfo) (given : List D) (attached : Option (LogView D))
        (filled : List Bool)
        (begun : HasBegun D.conduct H.digest torrent given attached filled engine)
        → IfOk result (λ status. EndsFetch begun.begins engine
        named.entry.are_together named.entry.peers.now log.entry
        (W.contents writer.old) (W.contents writer.new) status) }
    ensures fault { IfErr result (IsEndFault engine.log) }
    ensures full { IfErr result
        (λ fault. fault ≡ log_full → FindsLogFull D.conduct H.digest engine) }
{
    // The contracts of these calls say what holds of the engine, of all that led to it, and of all that leads on from
    // it.
    engine.keeps_laws();
    whole_runs_keep_promises(&engine);
    let mut engine = engine;
    begin_fetching(watch, &engine);
    flush_first(&mut engine, log)?;
    let torrent = engine.torrent();
    let short_blocks = ShortBlocks::new(alloc, torrent)?;
    let passage = Passage {
        short_blocks: &short_blocks,
        pieces: torrent.pieces(),
        shared,
    };
    fetch_from_all(alloc, net, watch, &mut engine, named, log, passage, writer)
}

/// Fetches from peers over TCP, one after the other or from all at once, and tells how it went; then it hears the
/// alarm. Errors: also where the alarm rang, since a device refused a write, and not all files are complete.
fn fetch_from_all<D: Disk + Drop, H: NodeHash, N: Net + Clock, P: Watch, W: Write>(
    alloc: Global,
    net: &N,
    watch: &P,
    engine: &mut Engine<D, H>,
    named: NamedPeers<'_>,
    log: Option<&str>,
    passage: Passage<'_>,
    writer: &mut W,
) -> Result<u8, Fault>
    requires no_peer { engine.old.state.peers ≡ [] }
    requires own_short_blocks { passage.short_blocks.now
        ≡ short_blocks_of engine.old.state.torrent }
    requires own_pieces { passage.pieces ≡ total_pieces engine.old.state.torrent }
    ensures fetched { IfOk result (λ status. Fetches D.conduct H.digest
        named.entry.are_together named.entry.peers.now log.entry
        engine.old (W.contents writer.old) (W.contents writer.new) status engine.new) }
    ensures run { LeadsTo D.conduct H.digest engine.old engine.new }
    ensures fault { IfErr result (IsEndFault engine.old.log) }
    ensures full { IfErr result
        (λ fault. fault ≡ log_full → FindsLogFull D.conduct H.digest engine.old) }
{
    let peers = named.peers;
    let bell = &passage.shared.alarm;
    if named.are_together {
        let flushing = together_flushing(log);
        return fetch_together(
            alloc, net, watch, engine, peers, flushing, passage, bell, writer,
        );
    }
    let mut links = links_to(alloc, net, watch, peers, passage)?;
    fetch_from(alloc, watch, engine, peers, &mut links, log, bell, writer)
}

/// Where `log` is the path of the engine's log, flushes the engine, before the first peer is dialled and has to wait.
/// A file of which the log marks a block counts as not synced until its first flush. This flush opens and syncs all
/// such files, which takes minutes where there are thousands; later ones sync only the files that were written since.
/// Errors: the flush was refused.
fn flush_first<D: Disk + Drop, H: NodeHash>(
    engine: &mut Engine<D, H>,
    log: Option<&str>,
) -> Result<(), Fault>
    ensures flushed { OnOk result
        (IsFlushedWhere D.conduct H.digest (is_some log.entry) engine.old (Ok tt) engine.new) }
    ensures failed { IfErr result (λ fault. (error : FlushError) × (fault ≡ flush_fault error)
        × IsFlushedWhere D.conduct H.digest (is_some log.entry) engine.old (Err error) engine.new) }
    ensures same { IsSameButPending engine.old.state engine.new.state }
    ensures run { LeadsTo D.conduct H.digest engine.old engine.new }
    ensures fault { IfErr result (IsFlushFault engine.old.log) }
    ensures full { IfErr result
        (λ fault. fault ≡ log_full → FindsLogFull D.conduct H.digest engine.old) }
{
    match log {
        Some(_) => finish(engine),
        None => Ok(()),
    }
}

/// When a fetch flushes in the session with a peer: never without a log.
fn fetch_flushing(log: Option<&str>) -> Flushing
    ensures { result ≡ fetch_flushing log.entry }
{
    match log {
        Some(_) => Flushing::Each(FLUSH_TURNS),
        None => Flushing::Never,
    }
}

/// When a fetch from many at once flushes: never without a log.
fn together_flushing(log: Option<&str>) -> Flushing {
    match log {
        Some(_) => Flushing::Each(TOGETHER_TURNS),
        None => Flushing::Never,
    }
}

/// Takes peers in turn, each by its link over TCP, until the engine is complete, and concludes, as `fetch_over` does.
/// Where `log` is the path of the engine's log, the engine is flushed among them. Then it hears the bell. Errors:
/// also where the bell rang, since a device refused a write, and not all files are complete.
fn fetch_from<D: Disk + Drop, H: NodeHash, N: Net + Clock, P: Watch, B: Bell, W: Write>(
    alloc: Global,
    watch: &P,
    engine: &mut Engine<D, H>,
    peers: &[Peer<'_>],
    links: &mut [TcpLink<'_, N, P>],
    log: Option<&str>,
    bell: &B,
    writer: &mut W,
) -> Result<u8, Fault>
    requires no_peer { engine.old.state.peers ≡ [] }
    requires own_links { links.old ≡ links_of engine.old.state.torrent peers.now }
    ensures fetched { IfOk result (λ status. HasFetchedOverTcp D.conduct H.digest peers.now
        log.entry engine.old (W.contents writer.old) (W.contents writer.new) status engine.new) }
    ensures heard { OnOk result (IsHeard (B.tells bell.now) (all_complete engine.new.state)) }
    ensures run { LeadsTo D.conduct H.digest engine.old engine.new }
    ensures fault { IfErr result (IsEndFault engine.old.log) }
    ensures full { IfErr result
        (λ fault. fault ≡ log_full → FindsLogFull D.conduct H.digest engine.old) }
{
    let flushing = fetch_flushing(log);
    let status = fetch_over(
        alloc,
        watch,
        engine,
        peers,
        links,
        SESSION_TURNS,
        flushing,
        writer,
    )?;
    hear(bell, engine.is_complete())?;
    Ok(status)
}

/// Makes a link to each peer, in their order. The links share what stands before their sockets (`passage`).
fn links_to<'a, N: Net + Clock, P: Watch>(
    alloc: Global,
    net: &'a N,
    watch: &'a P,
    peers: &'a [Peer<'a>],
    passage: Passage<'a>,
) -> Result<Vec<TcpLink<'a, N, P>>, AllocError>
    ensures { IfOk result (λ links. links.items
        ≡ links_by passage.entry.short_blocks.now passage.entry.pieces peers.now) }
{
    let idle = Duration::from_secs(IDLE_SECONDS);
    let mut links = Vec::new(alloc);
    for peer in peers {
        let Peer { host, port } = *peer;
        links.push(TcpLink::new(net, host, port, idle, passage, alloc, watch))?;
    }
    Ok(links)
}

/// Takes peers in turn, as `take_turns` does, and then concludes: flushes the engine, and writes how far the files
/// are. Errors: also where the line of a peer could not be written; all that came is on the devices even then.
fn fetch_over<D: Disk + Drop, H: NodeHash, P: Watch, L: Link, W: Write>(
    alloc: Global,
    watch: &P,
    engine: &mut Engine<D, H>,
    peers: &[Peer<'_>],
    links: &mut [L],
    turns: u64,
    flushing: Flushing,
    writer: &mut W,
) -> Result<u8, Fault>
    requires same_length { length links.old ≡ length peers.now }
    requires undialled { All (λ link. L.dials link ≡ 0) links.old }
    requires no_peer { engine.old.state.peers ≡ [] }
    ensures fetched { IfOk result (λ status. HasFetched D.conduct H.digest
        (link_conduct L.dials L.failures L.gives L.R.remaining L.W.contents) flushing
        turns peers.now
        engine.old links.old (W.contents writer.old) (W.contents writer.new) status links.new
        engine.new) }
    ensures broken_off { IfErr result (λ fault. BreaksOff D.conduct H.digest
        (link_conduct L.dials L.failures L.gives L.R.remaining L.W.contents) flushing turns
        engine.old links.old links.new fault engine.new) }
    ensures run { LeadsTo D.conduct H.digest engine.old engine.new }
    ensures fault { IfErr result (IsEndFault engine.old.log) }
    ensures full { IfErr result
        (λ fault. fault ≡ log_full → FindsLogFull D.conduct H.digest engine.old) }
{
    take_turns(alloc, watch, engine, peers, links, turns, flushing, writer)?;
    watch.clear();
    conclude(alloc, engine, writer)
}

/// Takes peers in turn, each by its link, until the engine is complete: tries a peer as `try_peer` does, and then
/// writes how it ended with that peer. Errors: a peer's turn ended with a fault, and then its line is the last thing
/// that is done; or, once all had their turns, the line of a peer could not be written, and then no line after it is.
fn take_turns<D: Disk + Drop, H: NodeHash, P: Watch, L: Link, W: Write>(
    alloc: Global,
    watch: &P,
    engine: &mut Engine<D, H>,
    peers: &[Peer<'_>],
    links: &mut [L],
    turns: u64,
    flushing: Flushing,
    writer: &mut W,
) -> Result<(), Fault>
    requires same_length { length links.old ≡ length peers.now }
    requires undialled { All (λ link. L.dials link ≡ 0) links.old }
    requires no_peer { engine.old.state.peers ≡ [] }
    ensures told { OnOk result (TellsInTurn (TriesAndTakesIn D.conduct H.digest
        (link_conduct L.dials L.failures L.gives L.R.remaining L.W.contents) flushing turns)
        peers.now engine.old links.old (W.contents writer.old) (W.contents writer.new) links.new
        engine.new) }
    ensures stopped { IfErr result (λ fault. StopsAmong (TriesAndTakesIn D.conduct H.digest
        (link_conduct L.dials L.failures L.gives L.R.remaining L.W.contents) flushing turns)
        engine.old links.old links.new fault engine.new) }
    ensures run { LeadsTo D.conduct H.digest engine.old engine.new }
    ensures fault { IfErr result (IsEndFault engine.old.log) }
    ensures full { IfErr result
        (λ fault. fault ≡ log_full → FindsLogFull D.conduct H.digest engine.old) }
{
    let mut written = Ok(());
    for (i, link) in links.iter_mut().enumerate() {
        if engine.is_complete() {
            break;
        }
        let (end, kept) = try_peer(alloc, engine, link, turns, flushing);
        watch.clear();
        written = tell_peer(alloc, written, &peers[i], end, writer);
        kept?;
    }
    written
}

/// Dials a peer, and has a session with it until the engine is complete, where it is reached, of at most `turns` turns,
/// with flushes in the session and after it, or with none. Then it takes in what came without hashes, and has all put on
/// the devices. Says how it ended with the peer, and the first fault: a flush was refused, or a file could not be taken
/// in.
fn try_peer<D: Disk + Drop, H: NodeHash, L: Link>(
    alloc: Global,
    engine: &mut Engine<D, H>,
    link: &mut L,
    turns: u64,
    flushing: Flushing,
) -> (PeerEnd, Result<(), Fault>)
    requires undialled { L.dials link.old ≡ 0 }
    requires no_peer { engine.old.state.peers ≡ [] }
    ensures tried { TriesAndTakesIn D.conduct H.digest
        (link_conduct L.dials L.failures L.gives L.R.remaining L.W.contents) flushing turns
        engine.old link.old result.0 result.1 link.new engine.new }
    ensures gone { engine.new.state.peers ≡ [] }
    ensures run { LeadsTo D.conduct H.digest engine.old engine.new }
    ensures fault { IfErr result.1 (IsEndFault engine.old.log) }
    ensures full { IfErr result.1
        (λ fault. fault ≡ log_full → FindsLogFull D.conduct H.digest engine.old) }
{
    let reached = link.dial();
    let (end, met) = meet_peer(alloc, engine, reached, true, turns, flushing);
    match met {
        Ok(()) => (end, take_in_and_sync(engine, end)),
        Err(error) => (end, Err(flush_fault(error))),
    }
}

/// Takes in what came of a peer without hashes, and flushes the engine. `end` says how it ended with the peer. Where
/// a file can't be taken in, that fault is told, whatever comes of the flush: this is made all the same, so that what
/// the files before it got is kept.
fn take_in_and_sync<D: Disk + Drop, H: NodeHash>(
    engine: &mut Engine<D, H>,
    end: PeerEnd,
) -> Result<(), Fault>
    requires no_peer { engine.old.state.peers ≡ [] }
    ensures behind { TakesInAndSyncs D.conduct H.digest end engine.old result engine.new }
    ensures gone { engine.new.state.peers ≡ [] }
    ensures run { LeadsTo D.conduct H.digest engine.old engine.new }
    ensures fault { IfErr result (IsEndFault engine.old.log) }
    ensures full { IfErr result
        (λ fault. fault ≡ log_full → FindsLogFull D.conduct H.digest engine.old) }
{
    match take_in_behind(engine, end) {
        Ok(()) => finish(engine),
        Err(fault) => {
            let _ = finish(engine);
            Err(fault)
        }
    }
}

/// Takes in what came of a peer without hashes, if there was a session with it: without one nothing came. Errors: a
/// read failed, or out of memory.
fn take_in_behind<D: Disk + Drop, H: NodeHash>(
    engine: &mut Engine<D, H>,
    end: PeerEnd,
) -> Result<(), Fault>
    requires no_peer { engine.old.state.peers ≡ [] }
    ensures taken_in { OnOk result (TakesInBehind D.conduct H.digest end engine.old engine.new) }
    ensures fault { IfErr result
        (λ fault. StopsAtWaiting D.conduct H.digest engine.old fault engine.new) }
    ensures gone { engine.new.state.peers ≡ [] }
    ensures run { LeadsTo D.conduct H.digest engine.old engine.new }
{
    match end {
        PeerEnd::Session(_) => adopt_waiting(engine),
        PeerEnd::Untried => Ok(()),
        PeerEnd::Unreachable => Ok(()),
        PeerEnd::Refused(_) => Ok(()),
    }
}
