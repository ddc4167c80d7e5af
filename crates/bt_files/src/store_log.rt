//! The log of a store, if there is to be one.
ghost use Rattle.std.specs.Prelude.{IfErr, IfOk, OnOk};
ghost use Rattle.bt_log_file.specs.Keeping.{HasFolderThat, IsKeptFile};
ghost use Rattle.bt_log_file.specs.Names.{HasFileByName, HasNoFileByName};
ghost use Rattle.bt_log_file.specs.Opening.{HasFailed, IsCallFaultOf, IsFurtherLog, IsLogFaultBy};
ghost use Rattle.bt_files.specs.StoreLog.{IsLogApart, IsLogAt, IsLogFaultAt, IsLookFaultBy};

use crate::device_context::DeviceContext;
use crate::file_use::FileUse;
use crate::hints::hint_at_log;
use bt_check::Fault;
use bt_disk::Disk;
use bt_engine::Engine;
use bt_folder::{KnownFiles, Lookup};
use bt_log_file::{LogContext, LogDisk, LogFolder, open_log, refuse_data_file};
use bt_meta::Torrent;
use bt_progress::Watch;
use bt_resume::ResumeLog;
use bt_tree::NodeHash;
use std::rt::Files;

/// Refuses a log whose path leads to one of the torrent's files, where a look at the paths shows that, before any of
/// these files is opened or made.
pub(crate) fn look_at_log<R: Files + AllocGlobal + Clone + Drop + Lookup, P: Watch>(
    rt: &R,
    watch: &P,
    dir: &str,
    torrent: &Torrent,
    log: Option<&str>,
) -> Result<(), Fault>
    ensures looked { OnOk result (IsLogApart (R.tells rt.now) dir.now torrent.now.files log.entry) }
    ensures fault { IfErr result
        (IsLookFaultBy (R.tells rt.now) dir.now torrent.now.files log.entry) }
{
    match log {
        Some(path) => {
            let outcome = refuse_data_file(rt, dir, torrent, path);
            hint_at_log(rt, watch, dir, torrent, path, &outcome);
            outcome
        }
        None => Ok(()),
    }
}

/// Opens the log of a torrent, where the path of one is given. All files of the torrent are open by now: `known` has
/// what the system tells of them, but for a read-only use, and gets the log's file too.
pub(crate) fn open_log_at<'a, R: Files + AllocGlobal + Clone + Drop, P: Watch>(
    rt: &R,
    watch: &'a P,
    context: DeviceContext<'a>,
    known: &mut KnownFiles,
    dir: &str,
    torrent: &Torrent,
    log: Option<&str>,
) -> Result<Option<ResumeLog<LogDisk<'a, R, P>>>, Fault>
    ensures log { IfOk result (IsLogAt known.old torrent.now log.entry known.new) }
    ensures fault { IfErr result (IsLogFaultAt known.old torrent.now log.entry) }
{
    match log {
        Some(path) => {
            let opened = open_or_hint(rt, watch, log_context(context), known, dir, torrent, path)?;
            Ok(Some(opened))
        }
        None => Ok(None),
    }
}

/// Opens the log of a torrent at a path, as `open_log` does. The watch is told of a log that is refused.
fn open_or_hint<'a, R: Files + AllocGlobal + Clone + Drop + Lookup + LogFolder, P: Watch>(
    rt: &R,
    watch: &'a P,
    context: LogContext<'a>,
    known: &mut KnownFiles,
    dir: &str,
    torrent: &Torrent,
    path: &str,
) -> Result<ResumeLog<LogDisk<'a, R, P>>, Fault>
    ensures log { IfOk result (IsFurtherLog known.old torrent.now path.now known.new) }
    ensures own_name { OnOk result (HasNoFileByName
        (R.tells rt.now) (R.lists rt.now) dir.now torrent.now.files path.now) }
    ensures kept { OnOk result (IsKeptFile (R.opens rt.now) (R.leads rt.now)
        (R.keeps rt.now) path.now) }
    ensures fault { let failed = HasFailed (R.refuses rt.now) (R.lists rt.now) path.now
        in let lost = HasFolderThat (R.leads rt.now) (R.loses rt.now) path.now
        in let named = HasFileByName (R.tells rt.now)
        (R.lists rt.now) dir.now torrent.now.files path.now
        in let own = HasNoFileByName (R.tells rt.now)
        (R.lists rt.now) dir.now torrent.now.files path.now
        in IfErr result (IsLogFaultBy (IsCallFaultOf failed lost) named own known.old torrent.now
        path.now) }
{
    let outcome = open_log(rt, watch, context, known, dir, torrent, path);
    hint_at_log(rt, watch, dir, torrent, path, &outcome);
    outcome
}

/// What the device of a log shares with the other devices and with the connections.
fn log_context<'a>(context: DeviceContext<'a>) -> LogContext<'a> {
    LogContext {
        digests: context.digests,
        alarm: context.alarm,
        seal: context.log_seal,
    }
}

/// Hints, at a terminal and where hints were asked for, that a log marks nothing although files have bytes: with that
/// log these do not count. `filled` tells for each file whether it has bytes.
pub(crate) fn hint_at_unmarked<D: Disk + Drop, H: NodeHash, P: Watch>(
    watch: &P,
    engine: &Engine<D, H>,
    usage: FileUse,
    filled: &[bool],
) {
    if watch.is_verbose() && filled.contains(&true) && marks_nothing(engine) {
        watch.hint(unmarked_text(usage));
    }
}

/// What is told where a log marks nothing although files have bytes.
fn unmarked_text(usage: FileUse) -> &'static str {
    match usage {
        FileUse::Fetch => {
            "no block of what is here is marked in the log, so all is fetched: \
             without --log what is here is taken in"
        }
        FileUse::Seed | FileUse::SeedByLog | FileUse::ReadOnly => {
            "no block of what is here is marked in the log, so none is served: \
             run fetch with this log, or seed without one"
        }
    }
}

/// Whether no block of any file is marked.
fn marks_nothing<D: Disk + Drop, H: NodeHash>(engine: &Engine<D, H>) -> bool {
    let count = engine.torrent().files().len() as u32;
    for file in 0..count {
        if has_mark(engine, file) {
            return false;
        }
    }
    true
}

/// Whether a block of a file is marked.
fn has_mark<D: Disk + Drop, H: NodeHash>(engine: &Engine<D, H>, file: u32) -> bool {
    match engine.report(file) {
        Some(report) => report.marked > 0,
        None => false,
    }
}
