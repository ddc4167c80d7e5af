//! What a look tells of the file of a log, before any file of its torrent is opened or made.
ghost use Rattle.std.specs.Prelude.{◌≡◌, ◌↔◌, IsTrue, IfErr, IfOk, MatchBool, OnOk, map};
ghost use Rattle.bt_meta.specs.Files.{file_of};
ghost use Rattle.bt_log_file.specs.Looking.{AreOne, EndAlike, HasFileAt, HasNoFileAt, IsAt, IsFileAt, IsDataFileFault, IsNoneAt, IsOnePlace};

use crate::folder::folder_of;
use bt_check::{Fault, data_path};
use bt_disk::FileIdentity;
use bt_folder::Lookup;
use bt_meta::{FileEntry, FilePath, Torrent};
use std::alloc::AllocError;
use std::path::Path;
use std::rt::Files;

/// Refuses the file at a path as that of a torrent's log where a look shows that it is one of the torrent's, below the
/// folder `dir`: before anything is made, so that nothing is. What a look does not show [`open_log`] finds, once all
/// files of the torrent are open: so this one is for the user's sake.
///
/// Errors: `LogAmongFiles`; or memory is refused.
///
/// [`open_log`]: crate::open_log
pub fn refuse_data_file<R: Files + AllocGlobal + Clone + Drop + Lookup>(
    rt: &R,
    dir: &str,
    torrent: &Torrent,
    path: &str,
) -> Result<(), Fault>
    ensures free { OnOk result
        (HasNoFileAt (R.tells rt.now) dir.now torrent.now.files path.now) }
    ensures fault { IfErr result
        (IsDataFileFault (R.tells rt.now) dir.now torrent.now.files path.now) }
{
    if is_data_file(rt, dir, torrent, path)? {
        return Err(Fault::LogAmongFiles);
    }
    Ok(())
}

/// Whether a look shows that the file at a path is one of a torrent's, below the folder `dir`: by what the system tells
/// of both; or, where nothing lies at the path, by whether both lead to one place. Nothing is opened or made. Errors:
/// memory is refused.
pub fn is_data_file<R: Files + AllocGlobal + Clone + Drop + Lookup>(
    rt: &R,
    dir: &str,
    torrent: &Torrent,
    path: &str,
) -> Result<bool, AllocError>
    ensures { IfOk result (λ is_file. MatchBool is_file
        (HasFileAt (R.tells rt.now) dir.now torrent.now.files path.now)
        (HasNoFileAt (R.tells rt.now) dir.now torrent.now.files path.now)) }
{
    let found = rt.identity_at(path);
    is_among(rt, dir, torrent.files(), path, found)
}

/// Whether one of a torrent's files lies at a path of which the system told this.
fn is_among<R: Files + AllocGlobal + Clone + Drop + Lookup>(
    rt: &R,
    dir: &str,
    files: &[FileEntry],
    path: &str,
    found: Option<FileIdentity>,
) -> Result<bool, AllocError>
    ensures { let all = map file_of files.now in IfOk result (λ is_among. MatchBool is_among
        (IsFileAt (R.tells rt.now) dir.now all path.now found)
        (IsNoneAt (R.tells rt.now) dir.now all path.now found)) }
{
    for file in files {
        if is_at(rt, dir, &file.path, path, found)? {
            return Ok(true);
        }
    }
    Ok(false)
}

/// Whether a file of a torrent lies at a path, by what the system tells of both; or, where it tells nothing of what
/// lies there, by whether both lead to one place.
fn is_at<R: Files + AllocGlobal + Clone + Drop + Lookup>(
    rt: &R,
    dir: &str,
    file: &FilePath,
    path: &str,
    found: Option<FileIdentity>,
) -> Result<bool, AllocError>
    ensures { IfOk result (IsAt (R.tells rt.now) dir.now path.now found file.now) }
{
    let data = data_path(rt.alloc(), dir, file)?;
    let data = data.as_path().as_str();
    Ok(match found {
        Some(_) => are_one(found, rt.identity_at(data)),
        None => is_one_place(rt, data, path),
    })
}

/// Whether two paths, at which nothing lies yet, lead to one place: they end in one name, and the folders that this is in
/// are one, by what the system tells of them; or, where it tells of neither, these lead to one place.
fn is_one_place<R: Lookup>(rt: &R, path: &str, other: &str) -> bool
    ensures { IsOnePlace (R.tells rt.now) path.now other.now result }
{
    let mut path = path;
    let mut other = other;
    'places: while end_alike(path, other) {
        let folder = folder_of(path);
        let other_folder = folder_of(other);
        let told = rt.identity_at(folder);
        let other_told = rt.identity_at(other_folder);
        if told.is_some() || other_told.is_some() || folder.len() >= path.len() {
            return are_one(told, other_told);
        }
        path = folder;
        other = other_folder;
    }
    false
}

/// Whether two paths end in one name.
fn end_alike(path: &str, other: &str) -> bool
    ensures { IsTrue result ↔ EndAlike path.now other.now }
{
    match (Path::new(path).file_name(), Path::new(other).file_name()) {
        (Some(name), Some(other)) => name == other,
        _ => false,
    }
}

/// Whether the system told of one file, or of one folder, twice.
pub(crate) fn are_one(one: Option<FileIdentity>, other: Option<FileIdentity>) -> bool
    ensures { IsTrue result ↔ AreOne one other }
{
    match (one, other) {
        (Some(one), Some(other)) => one == other,
        _ => false,
    }
}
