//! The store of a torrent that is read from its file.
ghost use Rattle.std.specs.Prelude.{◌≡◌, false, IfErr, IfOk};
ghost use Rattle.bt_check.specs.Fault.{same_file};
ghost use Rattle.bt_check.specs.TorrentFile.{HasText, IsLoadFault};
ghost use Rattle.bt_log_file.specs.Looking.{HasNoFileAt};
ghost use Rattle.bt_files.specs.FileUse.{is_read_only};
ghost use Rattle.bt_files.specs.Loading.{IsLoaded, IsStoreFault};
ghost use Rattle.bt_files.specs.OwnPaths.{AreOwnPaths};
ghost use Rattle.bt_files.specs.OwnTorrent.{HasOneFileTwice};
ghost use Rattle.bt_files.specs.StoreLog.{IsLogApart};

use crate::device_context::DeviceContext;
use crate::own_torrent::look_at_source;
use crate::store::{Store, open_store};
use bt_check::{BUFFER_LEN, Fault, Source, load_watched};
use bt_folder::Lookup;
use bt_meta::Torrent;
use bt_progress::{FileCall, Watch};
use std::rt::Files;

/// Reads a torrent from its file, and opens the store of its data files in the folder `dir`, with a log where the
/// path of one is given. The watch is told of the calls on these files. The first fault ends it. Where a look at the
/// paths shows that the torrent's own file is one of its data files, that is refused before any file is made.
///
/// Errors: `Torrent` where the torrent is refused; `SameFile` where two paths of the torrent lead to one file that
/// may be written, or one leads to the torrent's own file; `LogAmongFiles`, `OtherTorrent` or `LogTooLong` where the
/// log is refused; `Device`; `OutOfMemory`.
pub fn load_store<'a, R: Files + AllocGlobal + Clone + Drop + Lookup, P: Watch>(
    rt: &R,
    watch: &'a P,
    context: DeviceContext<'a>,
    source: Source<'_>,
    dir: &str,
    log: Option<&str>,
) -> Result<Store<'a, R, P>, Fault>
    ensures loaded { IfOk result (IsLoaded source.entry.is_info context.entry.usage dir.now
        log.entry) }
    ensures looked { IfOk result (λ engine.
        IsLogApart (R.tells rt.now) dir.now engine.state.torrent.files log.entry) }
    ensures own { IfOk result (λ engine. is_read_only context.entry.usage ≡ false
        → AreOwnPaths (R.lists rt.now) dir.now engine.state.torrent.files) }
    ensures apart { IfOk result (λ engine. is_read_only context.entry.usage ≡ false
        → HasNoFileAt (R.tells rt.now) dir.now engine.state.torrent.files source.entry.path.now) }
    ensures fault { IfErr result (IsStoreFault source.entry.is_info context.entry.usage log.entry) }
    ensures same { IfErr result (λ fault. fault ≡ same_file
        → HasOneFileTwice (R.tells rt.now) dir.now source.entry.path.now source.entry.is_info) }
{
    let torrent = load_torrent(rt, watch, source)?;
    look_at_source(rt, watch, context.usage, dir, &torrent, source)?;
    watch.begin(FileCall::Read);
    open_store(rt, watch, context, torrent, dir, log)
}

/// Reads a torrent from its file. It reads the file once, so that may be a pipe.
fn load_torrent<R: Files + AllocGlobal, P: Watch>(
    rt: &R,
    watch: &P,
    source: Source<'_>,
) -> Result<Torrent, Fault>
    ensures torrent { IfOk result (HasText source.entry.is_info) }
    ensures fault { IfErr result (IsLoadFault source.entry.is_info) }
{
    let mut buffer = [0; BUFFER_LEN];
    load_watched(rt, watch, source, &mut buffer)
}
