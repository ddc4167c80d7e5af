//! The command `seed`: connections are waited for and served, and what came of each is told.
ghost use Rattle.std.specs.Prelude.{[], ℕ, Bool, List, Option, ◌≡◌, ◌≢◌, ◌⊎◌, ◌++◌, ◌&&◌, not, IfErr, IfOk, OnOk, string_bytes};
ghost use Rattle.std.specs.Io.KnownBytes.{Appends, Keeps};
ghost use Rattle.bt_check.specs.Fault.{device, log_full, out_of_memory, status_of};
ghost use Rattle.bt_files.specs.Ending.{IsEndFault};
ghost use Rattle.bt_files.specs.Loading.{IsLogFull, IsStoreFault};
ghost use Rattle.bt_files.specs.Report.{engine_report};
ghost use Rattle.bt_machine.specs.Report.{all_complete};
ghost use Rattle.bt_machine.specs.State.{EngineView};
ghost use Rattle.bt_meta.specs.Torrent.{Metainfo, total_pieces};
ghost use Rattle.bt_connection.specs.ShortBlocks.{short_blocks_of};
ghost use Rattle.bt_resume.specs.ResumeLog.{LogView};
ghost use Rattle.bt_engine.specs.Leads.{LeadsTo};
ghost use Rattle.bt_transfer.specs.FullLog.{HasFilledLog};
ghost use Rattle.bt_transfer.specs.Hearing.{IsHeard};
ghost use Rattle.bt_transfer.specs.Seed.{EndsSeed, FailsServing, FailsToSeed, HasListened, HasServedAll, IsPortFor, IsSeed, Serves, listening_line, seed_use};
ghost use Rattle.bt_files.specs.Store.{HasBegun};

use crate::at_once::serve_at_once;
use crate::command::fetch::FLUSH_TURNS;
use crate::connections::serve_each;
use crate::device_context::device_context;
use crate::hearing::{Bell, hear};
use crate::reception::Reception;
use bt_check::{Fault, Source, print};
use bt_connection::ShortBlocks;
use bt_devices::Seal;
use bt_disk::Disk;
use bt_engine::{Engine, whole_runs_keep_promises};
use bt_files::{FileUse, finish, load_store, write_report};
use bt_progress::{FileCall, Watch};
use bt_session::Flushing;
use bt_sockets::{Passage, Shared, listen, port_of, tell_address};
use bt_tree::NodeHash;
use bt_words::{Service, Serving};
use std::alloc::{AllocError, Global};
use std::io::Write;
use std::net::{Net, OpenListener};
use std::rt::Files;
use std::time::Clock;

/// Opens the store of a torrent's files in the folder `dir`, as `load_store` does; listens, and writes at which port;
/// and serves connections, whatever came of others, each with a line that tells how it ended. Gives the status of the
/// program, 0.
///
/// One after the other: after each connection it flushes the engine, and then writes the connection's line. At once,
/// up to 64: it writes the line of each connection as that goes, and flushes the engine as soon as nobody is there
/// any more, and with a log, whose path is `log`, also after each 2,048 turns of all together. It flushes the engine
/// at the end too, also where no connection was served.
///
/// Where all files are complete as it begins, no file is written from then on, but the log is: a session ends in
/// which a block comes for one of them. Where the files are only to be read, and not all are complete, nothing is
/// served: it writes how far the files are, tells the watch that nothing is served, and gives 1.
///
/// The watch is told how many bytes are read: first of what the files have, and then for peers, where it is not known
/// how many that will be. Between the two a hint tells where files are not complete.
///
/// A session ends where a device refuses a write. Where that came in a session, and not all files are complete, the
/// device's fault is told at the end.
///
/// Errors: the torrent or the log is refused, two paths of the torrent are one file that may be written, or the port
/// can't be had, and then nothing is written; a device, the writer or the socket failed; out of memory; the log is
/// full.
pub fn seed<R: Files + AllocGlobal + Clone + Drop, N: Net + Clock, P: Watch, W: Write>(
    rt: &R,
    net: &N,
    watch: &P,
    source: Source<'_>,
    dir: &str,
    service: Service<'_>,
    log: Option<&str>,
    writer: &mut W,
) -> Result<u8, Fault>
    ensures done { IfOk result (IsSeed source.entry.is_info dir.now service.entry log.entry
        (W.contents writer.old) (W.contents writer.new)) }
    ensures fault { IfErr result (λ fault.
        IsStoreFault source.entry.is_info (seed_use service.entry.is_read_only) log.entry fault
        ⊎ IsLogFull log.entry fault) }
    ensures refused { IfErr result (λ fault. status_of fault ≡ 2 → fault ≢ log_full
        → Keeps (W.contents writer.old) (W.contents writer.new)) }
    ensures full { IfErr result (λ fault. fault ≡ log_full
        → HasFilledLog source.entry.is_info (seed_use service.entry.is_read_only) dir.now
        log.entry) }
{
    let shared = Shared::new(rt.alloc())?;
    let seal = Seal::new();
    // It is never closed: also a seed that writes no file any more writes its log.
    let log_seal = Seal::new();
    let context = device_context(seed_use(service.is_read_only), &shared, &seal, &log_seal);
    let engine = load_store(rt, watch, context, source, dir, log)?;
    let is_complete = engine.is_complete();
    if is_lacking(service.is_read_only, is_complete) {
        return report_lack(rt.alloc(), watch, engine, writer);
    }
    close_if_complete(&seal, is_complete);
    let flushing = seed_flushing(log);
    seed_store(
        rt.alloc(),
        net,
        watch,
        engine,
        &shared,
        service,
        flushing,
        writer,
    )
}

/// When a seed that serves many at once flushes though somebody is there: without a log as seldom as can be.
fn seed_flushing(log: Option<&str>) -> Flushing {
    match log {
        Some(_) => Flushing::Each(FLUSH_TURNS),
        None => Flushing::Each(u32::MAX),
    }
}

/// What a seed opens its files for.
fn seed_use(is_read_only: bool) -> FileUse
    ensures { result ≡ seed_use is_read_only }
{
    if is_read_only {
        FileUse::ReadOnly
    } else {
        FileUse::Seed
    }
}

/// Whether nothing is served: the files are only to be read, and not all are complete.
fn is_lacking(is_read_only: bool, is_complete: bool) -> bool
    ensures { result ≡ (is_read_only && not is_complete) }
{
    is_read_only && !is_complete
}

/// Closes the seal of the files where all are complete. All that the seed serves is there then: a block that it finds
/// damaged may be the user's own change, over which nothing is to be written.
fn close_if_complete(seal: &Seal, is_complete: bool) {
    if is_complete {
        seal.close();
    }
}

/// Writes how far the files of an engine are, which it takes, and tells the watch that nothing is served. Gives the
/// status of the program, 1.
fn report_lack<D: Disk + Drop, H: NodeHash, P: Watch, W: Write>(
    alloc: Global,
    watch: &P,
    engine: Engine<D, H>,
    writer: &mut W,
) -> Result<u8, Fault>
    ensures told { IfOk result (λ status. (status ≡ 1)
        × Appends (W.contents writer.old) (W.contents writer.new) (engine_report engine.state)) }
    ensures fault { IfErr result (λ fault. (fault ≡ device) ⊎ (fault ≡ out_of_memory)) }
{
    write_report(alloc, &engine, writer)?;
    watch.clear();
    watch.tell(
        "not all files are complete here, and with --read-only none is written: nothing is served",
    );
    Ok(1)
}

/// Hints at what the files lack, listens, and serves connections to an engine, which it takes and which began with a
/// torrent. What stands before the sockets is made for the engine's torrent. Gives the status of the program, 0.
fn seed_store<D: Disk + Drop, H: NodeHash, N: Net + Clock, P: Watch, W: Write>(
    alloc: Global,
    net: &N,
    watch: &P,
    engine: Engine<D, H>,
    shared: &Shared,
    service: Service<'_>,
    flushing: Flushing,
    writer: &mut W,
) -> Result<u8, Fault>
    requires no_peer { engine.state.peers ≡ [] }
    ensures listened { (torrent : Metainfo) (given : List D) (attached : Option (LogView D))
        (filled : List Bool)
        (begun : HasBegun D.conduct H.digest torrent given attached filled engine)
        → IfOk result (λ status. EndsSeed begun.begins engine service.entry
        (W.contents writer.old) (W.contents writer.new) status) }
    ensures stopped { IfErr result (λ fault. (last : EngineView D)
        × FailsToSeed D.conduct H.digest engine fault last) }
    ensures fault { IfErr result (IsEndFault engine.log) }
{
    // The contracts of these calls say what holds of the engine, of all that led to it, and of all that leads on from
    // it.
    engine.keeps_laws();
    whole_runs_keep_promises(&engine);
    let mut engine = engine;
    hint_at_lack(watch, &engine);
    watch.begin(FileCall::Read);
    let torrent = engine.torrent();
    let short_blocks = ShortBlocks::new(alloc, torrent)?;
    let passage = Passage {
        short_blocks: &short_blocks,
        pieces: torrent.pieces(),
        shared,
    };
    listen_and_serve(
        alloc,
        net,
        watch,
        &mut engine,
        passage,
        service,
        flushing,
        writer,
    )?;
    Ok(0)
}

/// Hints, at a terminal and where hints were asked for, that blocks are missing, since the folder may be another one
/// than was meant.
fn hint_at_lack<P: Watch, D: Disk + Drop, H: NodeHash>(watch: &P, engine: &Engine<D, H>) {
    if watch.is_verbose() && !engine.is_complete() {
        watch.hint(
            "not all of the torrent's files are complete here, and what is missing can't be served",
        );
    }
}

/// Listens, tells the watch where, writes at which port, and serves connections to an engine.
fn listen_and_serve<D: Disk + Drop, H: NodeHash, N: Net + Clock, P: Watch, W: Write>(
    alloc: Global,
    net: &N,
    watch: &P,
    engine: &mut Engine<D, H>,
    passage: Passage<'_>,
    service: Service<'_>,
    flushing: Flushing,
    writer: &mut W,
) -> Result<(), Fault>
    requires no_peer { engine.old.state.peers ≡ [] }
    requires own_short_blocks { passage.short_blocks.now
        ≡ short_blocks_of engine.old.state.torrent }
    requires own_pieces { passage.pieces ≡ total_pieces engine.old.state.torrent }
    ensures run { LeadsTo D.conduct H.digest engine.old engine.new }
    ensures served { OnOk result (HasListened D.conduct H.digest service.entry
        engine.old (W.contents writer.old) (W.contents writer.new) engine.new) }
    ensures stopped { IfErr result
        (λ fault. FailsToSeed D.conduct H.digest engine.old fault engine.new) }
    ensures fault { IfErr result (IsEndFault engine.old.log) }
{
    let listener = listen(net, service.address, service.port)?;
    tell_address(alloc, watch, &listener);
    announce(alloc, &listener, service.port, writer)?;
    let reception = Reception {
        net,
        watch,
        listener: &listener,
        passage,
    };
    let bell = &passage.shared.alarm;
    serve_all(
        alloc,
        &reception,
        engine,
        service.serving,
        flushing,
        bell,
        writer,
    )
}

/// Writes at which port a listener waits for connections, which was asked for the port `asked`. Errors: as
/// `port_for`; the writer failed; out of memory.
fn announce<L: OpenListener, W: Write>(
    alloc: Global,
    listener: &L,
    asked: u16,
    writer: &mut W,
) -> Result<(), Fault>
    ensures told { OnOk result ((port : ℕ) × IsPortFor asked port
        × Appends (W.contents writer.old) (W.contents writer.new) (listening_line port)) }
    ensures fault { IfErr result (λ fault. (fault ≡ device) ⊎ (fault ≡ out_of_memory)) }
{
    let port = port_for(listener, asked)?;
    tell_port(alloc, port, writer)
}

/// The port at which a listener waits for connections. It was asked for the port `asked`, which is 0 for any port.
/// Errors: the system does not tell the port, or tells another than was asked for.
fn port_for<L: OpenListener>(listener: &L, asked: u16) -> Result<u16, Fault>
    ensures port { IfOk result (IsPortFor asked) }
    ensures fault { IfErr result (λ fault. fault ≡ device) }
{
    let port = port_of(listener)?;
    if asked != 0 && port != asked {
        return Err(Fault::Device);
    }
    Ok(port)
}

/// Writes the line of a port. Errors: the writer failed; out of memory.
fn tell_port<W: Write>(alloc: Global, port: u16, writer: &mut W) -> Result<(), Fault>
    ensures told { OnOk result
        (Appends (W.contents writer.old) (W.contents writer.new) (listening_line port)) }
    ensures fault { IfErr result (λ fault. (fault ≡ device) ⊎ (fault ≡ out_of_memory)) }
{
    let mut line = String::new(alloc);
    push_line(&mut line, port)?;
    print(writer, line.as_str())
}

/// Adds the line of a port to a text. Errors: out of memory.
fn push_line(line: &mut String, port: u16) -> Result<(), AllocError>
    ensures { OnOk result (string_bytes line.new ≡ string_bytes line.old ++ listening_line port) }
{
    use std::fmt::Write;
    writeln!(line, "listening {port}")
}

/// Serves as many connections as `serving` says, one after the other or at once; where it gives no count, all that
/// can be numbered.
fn serve_as_said<D: Disk + Drop, H: NodeHash, N: Net + Clock, P: Watch, W: Write>(
    alloc: Global,
    reception: &Reception<'_, N, P>,
    engine: &mut Engine<D, H>,
    serving: Serving,
    flushing: Flushing,
    writer: &mut W,
) -> Result<(), Fault>
    requires no_peer { engine.old.state.peers ≡ [] }
    ensures served { OnOk result (Serves D.conduct H.digest serving
        engine.old (W.contents writer.old) (W.contents writer.new) engine.new) }
    ensures kept { IfErr result
        (λ fault. FailsServing D.conduct H.digest engine.old fault engine.new) }
    ensures run { LeadsTo D.conduct H.digest engine.old engine.new }
    ensures fault { IfErr result (IsEndFault engine.old.log) }
{
    match serving {
        Serving::Count(count) => serve_each(alloc, reception, engine, u64::from(count), writer),
        Serving::Together(count) => {
            let count = u64::from(count);
            serve_at_once(alloc, reception, engine, count, flushing, writer)
        }
        Serving::Forever => { serve_at_once(alloc, reception, engine, u64::MAX, flushing, writer) }
    }
}

/// Serves as many connections as `serving` says, and flushes the engine; then it hears the bell. Errors: also where
/// the bell rang, since a device refused a write, and not all files are complete.
fn serve_all<D: Disk + Drop, H: NodeHash, N: Net + Clock, P: Watch, B: Bell, W: Write>(
    alloc: Global,
    reception: &Reception<'_, N, P>,
    engine: &mut Engine<D, H>,
    serving: Serving,
    flushing: Flushing,
    bell: &B,
    writer: &mut W,
) -> Result<(), Fault>
    requires no_peer { engine.old.state.peers ≡ [] }
    ensures heard { OnOk result (IsHeard (B.tells bell.now) (all_complete engine.new.state)) }
    ensures served { OnOk result (HasServedAll D.conduct H.digest serving
        engine.old (W.contents writer.old) (W.contents writer.new) engine.new) }
    ensures kept { IfErr result
        (λ fault. FailsServing D.conduct H.digest engine.old fault engine.new) }
    ensures run { LeadsTo D.conduct H.digest engine.old engine.new }
    ensures fault { IfErr result (IsEndFault engine.old.log) }
{
    serve_as_said(alloc, reception, engine, serving, flushing, writer)?;
    // also where there was no connection
    finish(engine)?;
    hear(bell, engine.is_complete())
}
