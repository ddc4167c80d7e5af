//! The log of a torrent, opened in its file.
ghost use Rattle.std.specs.Prelude.{◌≡◌, Ok, Err, IfErr, IfOk, IfSome, OnOk, MatchBool, IsSomeAnd, map};
ghost use Rattle.bt_folder.specs.KnownFiles.{IsKnown};
ghost use Rattle.bt_folder.specs.declared.folder_names.ListingError.TheVariants.{Device as CallFailed};
ghost use Rattle.bt_meta.specs.Files.{file_of};
ghost use Rattle.bt_resume.specs.ResumeLog.{IsAttached};
ghost use Rattle.bt_log_file.specs.Device.{device_conduct};
ghost use Rattle.bt_log_file.specs.Folder.{folder_of};
ghost use Rattle.bt_log_file.specs.Keeping.{HasFolderThat, IsKeptFile, IsKeptIfEmpty};
ghost use Rattle.bt_log_file.specs.Names.{HasFileByName, HasNoFileByName};
ghost use Rattle.bt_log_file.specs.Opening.{AddsFile, HasFailed, IsAdded, IsCallFaultBy, IsCallFaultOf, IsFileFault, IsFurtherLog, IsLogFaultBy, IsLogFaultOf, IsNameFault, listing_fault};

use crate::attaching::attach_log;
use crate::device::{LogContext, LogDisk, open_device};
use crate::folder::{folder_of, keep_name};
use crate::log_folder::{LogFolder, OpenedLog};
use crate::names::is_own_name;
use crate::other_files::OtherFiles;
use bt_check::{Fault, told};
use bt_disk::FileIdentity;
use bt_folder::{KnownFiles, ListingError, Lookup};
use bt_meta::{FileEntry, Torrent};
use bt_progress::{FileCall, Watch};
use bt_resume::ResumeLog;
use std::alloc::AllocError;
use std::rt::Files;
use std::snapshot::Snapshot;

/// Opens the log of a torrent in the file at a path, which is made where it is absent. All files of the torrent were
/// opened before, or made, below the folder `dir`: `known` has them, and the log's file is added to it.
///
/// A file without bytes becomes a log: its name is kept, by a sync of its folder where that can be synced, and then it
/// gets a header, which is written and synced. To any other nothing is written.
///
/// Errors, in this order: the file can't be opened, or is no regular one; it is one of the torrent's, by this name,
/// another or a link, before anything is written; it is not kept; and those of [`ResumeLog::attach`]. Or memory is
/// refused. A file that was made stays, and `known` is of no use any more. Which call on a file failed is told.
pub fn open_log<'a, R: Files + AllocGlobal + Clone + Drop + Lookup + LogFolder, P: Watch>(
    rt: &R,
    watch: &'a P,
    context: LogContext<'a>,
    known: &mut KnownFiles,
    dir: &str,
    torrent: &Torrent,
    path: &str,
) -> Result<ResumeLog<LogDisk<'a, R, P>>, Fault>
    ensures log { IfOk result (IsFurtherLog known.old torrent.now path.now known.new) }
    ensures own_name { OnOk result (HasNoFileByName
        (R.tells rt.now) (R.lists rt.now) dir.now torrent.now.files path.now) }
    ensures kept { OnOk result (IsKeptFile (R.opens rt.now) (R.leads rt.now)
        (R.keeps rt.now) path.now) }
    ensures fault { let failed = HasFailed (R.refuses rt.now) (R.lists rt.now) path.now
        in let lost = HasFolderThat (R.leads rt.now) (R.loses rt.now) path.now
        in let named = HasFileByName (R.tells rt.now)
        (R.lists rt.now) dir.now torrent.now.files path.now
        in let own = HasNoFileByName (R.tells rt.now)
        (R.lists rt.now) dir.now torrent.now.files path.now
        in IfErr result (IsLogFaultBy (IsCallFaultOf failed lost) named own known.old torrent.now
        path.now) }
{
    let opened = open_device(rt, watch, context, path)?;
    open_in_file(rt, watch, known, dir, torrent, opened)
}

/// Opens the log of a torrent in a file that was opened. Errors: the file is one of the torrent's; it is not kept; and
/// those of [`ResumeLog::attach`].
fn open_in_file<'a, R: Lookup + LogFolder, P: Watch>(
    rt: &R,
    watch: &P,
    known: &mut KnownFiles,
    dir: &str,
    torrent: &Torrent,
    opened: OpenedLog<'_, LogDisk<'a, R, P>>,
) -> Result<ResumeLog<LogDisk<'a, R, P>>, Fault>
    ensures log { IfOk result
        (IsAttached device_conduct torrent.now.infohash opened.entry.disk) }
    ensures further { OnOk result (AddsFile known.old opened.entry.opening.identity known.new) }
    ensures own_name { OnOk result (HasNoFileByName
        (R.tells rt.now) (R.lists rt.now) dir.now torrent.now.files opened.entry.path.now) }
    ensures kept { OnOk result (IsKeptIfEmpty
        (R.leads rt.now) (R.keeps rt.now) opened.entry.opening opened.entry.path.now) }
    ensures fault { let path = opened.entry.path.now
        in let failed = HasFailed (R.refuses rt.now) (R.lists rt.now) path
        in let lost = HasFolderThat (R.leads rt.now) (R.loses rt.now) path
        in let named = HasFileByName (R.tells rt.now)
        (R.lists rt.now) dir.now torrent.now.files path
        in let own = HasNoFileByName (R.tells rt.now)
        (R.lists rt.now) dir.now torrent.now.files path
        in IfErr result (IsLogFaultOf known.old opened.entry.opening.identity torrent.now.infohash
        (IsCallFaultOf failed lost) named own opened.entry.disk) }
{
    let others = OtherFiles {
        known: Snapshot::of(known),
        dir,
        torrent,
    };
    refuse_known(known, opened.opening.identity)?;
    refuse_other_name(rt, watch, dir, torrent.files(), opened.path)?;
    if opened.opening.len == 0 {
        keep_name(rt, watch, &others, &opened)?;
    }
    attach_log(rt, &others, opened)
}

/// Adds the file of a log to those that are known. Errors: it is one of them, by what the system tells of it, or
/// memory is refused.
fn refuse_known(known: &mut KnownFiles, identity: Option<FileIdentity>) -> Result<(), Fault>
    ensures further { OnOk result (IfSome identity (λ file. ¬ IsKnown known.old file)) }
    ensures added { OnOk result (IsAdded known.old identity known.new) }
    ensures fault { IfErr result (IsFileFault known.old identity) }
{
    if is_further(known, identity)? {
        return Ok(());
    }
    Err(Fault::LogAmongFiles)
}

/// Whether a file is none of those that are known, to which it is added. Where the system tells nothing of it, it
/// counts as none.
fn is_further(known: &mut KnownFiles, identity: Option<FileIdentity>) -> Result<bool, AllocError>
    ensures is_further { IfOk result (λ is_further. MatchBool is_further
        (IfSome identity (λ file. ¬ IsKnown known.old file))
        (IsSomeAnd identity (IsKnown known.old))) }
    ensures added { OnOk result (IsAdded known.old identity known.new) }
{
    match identity {
        Some(file) => known.insert(file),
        None => Ok(true),
    }
}

/// Looks for a file of a torrent that is the log's by a name which differs in case alone. Errors: there is one; a folder
/// can't be listed, or memory is refused.
fn refuse_other_name<R: Files + AllocGlobal + Clone + Drop + Lookup, P: Watch>(
    rt: &R,
    watch: &P,
    dir: &str,
    files: &[FileEntry],
    path: &str,
) -> Result<(), Fault>
    ensures own_name { OnOk result (HasNoFileByName
        (R.tells rt.now) (R.lists rt.now) dir.now (map file_of files.now) path.now) }
    ensures fault { let named = HasFileByName
        (R.tells rt.now) (R.lists rt.now) dir.now (map file_of files.now) path.now
        in IfErr result (IsNameFault (R.lists rt.now (folder_of path.now) (Err CallFailed)) named) }
{
    if has_own_name(rt, watch, dir, files, path)? {
        return Ok(());
    }
    Err(Fault::LogAmongFiles)
}

/// Whether no file of a torrent is the log's by such a name. Errors: a folder can't be listed, which is told of, or
/// memory is refused.
fn has_own_name<R: Files + AllocGlobal + Clone + Drop + Lookup, P: Watch>(
    rt: &R,
    watch: &P,
    dir: &str,
    files: &[FileEntry],
    path: &str,
) -> Result<bool, Fault>
    ensures is_own { let all = map file_of files.now in IfOk result (λ is_own. MatchBool is_own
        (HasNoFileByName (R.tells rt.now) (R.lists rt.now) dir.now all path.now)
        (HasFileByName (R.tells rt.now) (R.lists rt.now) dir.now all path.now)) }
    ensures fault { IfErr result (IsCallFaultBy (R.lists rt.now (folder_of path.now)
        (Err CallFailed))) }
{
    let is_own = own_or_fault(is_own_name(rt, dir, files, path));
    told(rt.alloc(), watch, FileCall::List, folder_of(path), is_own)
}

/// The answer to whether a name is a log's own, or why the program ends where a folder can't be listed for it.
fn own_or_fault(is_own: Result<bool, ListingError>) -> Result<bool, Fault>
    ensures answer { IfOk is_own (λ answer. result ≡ Ok answer) }
    ensures fault { IfErr is_own (λ error. result ≡ Err (listing_fault error)) }
{
    match is_own {
        Ok(is_own) => Ok(is_own),
        Err(error) => Err(listing_fault(error)),
    }
}

/// Why the program ends where a folder can't be listed.
fn listing_fault(error: ListingError) -> Fault
    ensures { result ≡ listing_fault error }
{
    match error {
        ListingError::Device => Fault::Device,
        ListingError::OutOfMemory => Fault::OutOfMemory,
    }
}
