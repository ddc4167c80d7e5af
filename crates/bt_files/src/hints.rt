//! Hints on what lies in the folder of a torrent's files, and on the file of a log. Where memory is short, nothing is
//! told; no clause says what is.

use crate::file_use::FileUse;
use bt_check::{Fault, data_path};
use bt_folder::{Lookup, or_dot};
use bt_meta::{FileEntry, Torrent};
use bt_progress::Watch;
use std::alloc::{AllocError, Global};
use std::rt::Files;

/// Hints, at a terminal and where hints were asked for, that none of a torrent's files is in their folder, or that
/// there is no such folder, before any of them is made. Of a read-only use, which makes none, and where memory is
/// short, nothing is told.
pub(crate) fn hint_at_absence<R: Files + AllocGlobal + Clone + Drop + Lookup, P: Watch>(
    rt: &R,
    watch: &P,
    usage: FileUse,
    dir: &str,
    torrent: &Torrent,
) {
    if usage.is_read_only() || !watch.is_verbose() {
        return;
    }
    if let Ok(Some(text)) = absence_text(rt, dir, torrent) {
        watch.hint(text.as_str());
    }
}

/// What is told of a folder that has none of a torrent's files. None where the folder has one of them, or something
/// in the place of one.
fn absence_text<R: Files + AllocGlobal + Clone + Drop + Lookup>(
    rt: &R,
    dir: &str,
    torrent: &Torrent,
) -> Result<Option<String>, AllocError> {
    if has_file(rt, dir, torrent)? {
        return Ok(None);
    }
    let folder = or_dot(dir);
    let text = match rt.identity_at(folder) {
        Some(_) => format!(in rt.alloc();
            "none of the torrent's files is in {folder}: they are made there"
        )?,
        None => format!(in rt.alloc();
            "{folder} is not there: it is made, with the torrent's files"
        )?,
    };
    Ok(Some(text))
}

/// Whether one of a torrent's files is in a folder, or something in its place.
fn has_file<R: Files + AllocGlobal + Clone + Drop + Lookup>(
    rt: &R,
    dir: &str,
    torrent: &Torrent,
) -> Result<bool, AllocError> {
    for file in torrent.files() {
        let path = data_path(rt.alloc(), dir, &file.path)?;
        if rt.identity_at(path.as_path().as_str()).is_some() {
            return Ok(true);
        }
    }
    Ok(false)
}

/// Hints, at a terminal and where hints were asked for, that a file which is only read has more bytes than the
/// torrent says, as a check does. Where memory is short, nothing is told.
pub(crate) fn hint_at_longer<P: Watch>(
    alloc: Global,
    watch: &P,
    usage: FileUse,
    dir: &str,
    entry: &FileEntry,
    length: u64,
) {
    if !usage.is_read_only() || !watch.is_verbose() || length <= entry.length {
        return;
    }
    if let Ok(text) = longer_text(alloc, dir, entry) {
        watch.hint(text.as_str());
    }
}

/// What is told of a file that is longer than the torrent says.
fn longer_text(alloc: Global, dir: &str, entry: &FileEntry) -> Result<String, AllocError> {
    let path = data_path(alloc, dir, &entry.path)?;
    let name = path.as_path().as_str();
    format!(in alloc; "{name} is longer than the torrent says")
}

/// Hints, at a terminal and where hints were asked for, which file a refused log is in; and where that file is one of
/// the torrent's, which one, if a look at the paths shows it.
pub(crate) fn hint_at_log<T, R: Files + AllocGlobal + Clone + Drop + Lookup, P: Watch>(
    rt: &R,
    watch: &P,
    dir: &str,
    torrent: &Torrent,
    path: &str,
    outcome: &Result<T, Fault>,
) {
    if let Err(fault) = outcome
        && watch.is_verbose()
    {
        if let Ok(Some(text)) = log_text(rt, dir, torrent, path, *fault) {
            watch.hint(text.as_str());
        }
    }
}

/// What is told of a log that is refused. None where it is not refused, but could not be opened.
fn log_text<R: Files + AllocGlobal + Clone + Drop + Lookup>(
    rt: &R,
    dir: &str,
    torrent: &Torrent,
    path: &str,
    fault: Fault,
) -> Result<Option<String>, AllocError> {
    let alloc = rt.alloc();
    let text = match fault {
        Fault::LogAmongFiles => match file_at(rt, dir, torrent, path)? {
            Some(file) => format!(in alloc; "{path} is the torrent's file {file}")?,
            None => format!(in alloc; "{path} is one of the torrent's files")?,
        },
        Fault::OtherTorrent => {
            format!(in alloc; "{path} is the log of another torrent, or no log")?
        }
        Fault::LogTooLong => format!(in alloc; "{path} is longer than any log")?,
        _ => return Ok(None),
    };
    Ok(Some(text))
}

/// The path of the torrent's file that a look shows to be the file at `path`, if there is one.
fn file_at<R: Files + AllocGlobal + Clone + Drop + Lookup>(
    rt: &R,
    dir: &str,
    torrent: &Torrent,
    path: &str,
) -> Result<Option<String>, AllocError> {
    let found = rt.identity_at(path);
    for file in torrent.files() {
        let data = data_path(rt.alloc(), dir, &file.path)?;
        if found.is_some() && rt.identity_at(data.as_path().as_str()) == found {
            return Ok(Some(data.into_string()));
        }
    }
    Ok(None)
}
