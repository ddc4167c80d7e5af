//! The names on the paths of a torrent's files: each has to lead to a file or a folder of its own.
ghost use Rattle.std.specs.Prelude.{◌≡◌, false, map, IfErr, IfOk, OnOk};
ghost use Rattle.std.specs.Bool.{OnFalse, OnTrue};
ghost use Rattle.bt_folder.specs.CasePaths.{GoesTo, HasNameOfAnother, IsOwnPath};
ghost use Rattle.bt_meta.specs.Files.{file_of};
ghost use Rattle.bt_files.specs.FileUse.{is_read_only};
ghost use Rattle.bt_files.specs.OpenFolder.{IsCallFault, IsPathFault};
ghost use Rattle.bt_files.specs.OwnPaths.{AreOwnPaths};

use crate::file_use::FileUse;
use crate::open_folder::tell_same_file;
use bt_check::{Fault, told};
use bt_folder::{CasePaths, ListingError, Lookup};
use bt_meta::{FileEntry, FilePath};
use bt_progress::{FileCall, Watch};
use std::rt::Files;

/// Looks whether each name on the paths of a torrent's files has a file or folder of its own, but for a read-only
/// use. All files are open by now: so the first listing of a folder has all its names, and a folder is not listed
/// again for each name that differs from another in case alone.
///
/// Errors: two names that differ in case are one file or folder, of which the watch is told with the path of the
/// later file; a folder can't be listed; memory is refused.
pub(crate) fn look_at_paths<R: Files + AllocGlobal + Clone + Drop + Lookup, P: Watch>(
    rt: &R,
    watch: &P,
    usage: FileUse,
    dir: &str,
    entries: &[FileEntry],
) -> Result<(), Fault>
    ensures own { OnOk result (is_read_only usage ≡ false
        → AreOwnPaths (R.lists rt.now) dir.now (map file_of entries.now)) }
    ensures fault { IfErr result (IsPathFault usage (map file_of entries.now)) }
{
    if usage.is_read_only() {
        return Ok(());
    }
    let mut paths = CasePaths::new(rt.alloc());
    for entry in entries {
        if !is_own_path(rt, watch, &mut paths, dir, &entry.path)? {
            tell_same_file(rt.alloc(), watch, dir, &entry.path)?;
            return Err(Fault::SameFile);
        }
    }
    Ok(())
}

/// Whether each name on the next path has a file or folder of its own, also in a folder for which names that differ
/// in case are one.
fn is_own_path<R: Files + AllocGlobal + Clone + Drop + Lookup, P: Watch>(
    rt: &R,
    watch: &P,
    paths: &mut CasePaths,
    dir: &str,
    path: &FilePath,
) -> Result<bool, Fault>
    ensures answer { IfOk result (IsOwnPath (R.lists rt.now) dir.now paths.old paths.new path.now) }
    ensures goes { IfOk result (λ is_own. OnTrue is_own (GoesTo paths.old paths.new path.now)) }
    ensures of_another { IfOk result
        (λ is_own. OnFalse is_own (HasNameOfAnother paths.old paths.new path.now)) }
    ensures fault { IfErr result IsCallFault }
{
    let elements = path.elements();
    let is_own = match paths.is_own(rt, dir, elements.as_slice()) {
        Ok(is_own) => Ok(is_own),
        Err(ListingError::Device) => Err(Fault::Device),
        Err(ListingError::OutOfMemory) => Err(Fault::OutOfMemory),
    };
    told(rt.alloc(), watch, FileCall::List, dir, is_own)
}
