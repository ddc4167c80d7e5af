//! The file that a torrent is read from, which must be none of its data files.
ghost use Rattle.std.specs.Prelude.{◌≡◌, false, IfErr, OnOk};
ghost use Rattle.bt_log_file.specs.Looking.{HasNoFileAt};
ghost use Rattle.bt_files.specs.FileUse.{is_read_only};
ghost use Rattle.bt_files.specs.OwnTorrent.{IsSourceFault};

use crate::file_use::FileUse;
use bt_check::{Fault, Source};
use bt_folder::Lookup;
use bt_log_file::is_data_file;
use bt_meta::Torrent;
use bt_progress::Watch;
use std::alloc::{AllocError, Global};
use std::rt::Files;

/// Refuses a torrent that was read from one of its own data files in the folder `dir`, where a look at the paths
/// shows that, before any of them is opened or made: what comes for that file would be written over the torrent. For
/// a read-only use nothing is refused.
///
/// Errors: `SameFile`, of which the watch is told with the torrent's path; memory is refused.
pub(crate) fn look_at_source<R: Files + AllocGlobal + Clone + Drop + Lookup, P: Watch>(
    rt: &R,
    watch: &P,
    usage: FileUse,
    dir: &str,
    torrent: &Torrent,
    source: Source<'_>,
) -> Result<(), Fault>
    ensures apart { OnOk result (is_read_only usage ≡ false
        → HasNoFileAt (R.tells rt.now) dir.now torrent.now.files source.entry.path.now) }
    ensures fault { IfErr result
        (IsSourceFault (R.tells rt.now) usage dir.now torrent.now.files source.entry.path.now) }
{
    if usage.is_read_only() {
        return Ok(());
    }
    if is_data_file(rt, dir, torrent, source.path)? {
        tell_source(rt.alloc(), watch, source.path)?;
        return Err(Fault::SameFile);
    }
    Ok(())
}

/// Tells the watch that the file of a torrent is one of its data files.
fn tell_source<P: Watch>(alloc: Global, watch: &P, path: &str) -> Result<(), AllocError> {
    let text = format!(in alloc; "{path}: this torrent's own file is one of those that it names")?;
    watch.tell(text.as_str());
    Ok(())
}
