//! A hint for who checks another folder than the one that holds the files.

use crate::display::display_name;
use crate::paths::data_path;
use bt_meta::Torrent;
use bt_progress::Watch;
use std::alloc::{AllocError, Global};
use std::path::PathBuf;
use std::rt::Files;
use std::{fs, str};

/// At a terminal, and where that was asked for, tells that no file of a torrent is in a folder, and where the one in it that has the torrent's
/// name has a file of it, which that is. Where memory is short, nothing is told.
pub(crate) fn hint_at_folder<R: Files + AllocGlobal, P: Watch>(
    rt: &R,
    watch: &P,
    torrent: &Torrent,
    dir: &str,
) {
    if !watch.is_verbose() {
        return;
    }
    if let Ok(text) = hint_text(rt, torrent, dir) {
        watch.hint(text.as_str());
    }
}

fn hint_text<R: Files + AllocGlobal>(
    rt: &R,
    torrent: &Torrent,
    dir: &str,
) -> Result<String, AllocError> {
    let alloc = rt.alloc();
    let shown = display_name(alloc, dir.as_bytes())?;
    let Some(folder) = folder_in(alloc, torrent, dir)? else {
        return format!(in alloc; "none of the torrent's files is in {shown}");
    };
    if !has_file(rt, torrent, folder.as_path().as_str())? {
        return format!(in alloc; "none of the torrent's files is in {shown}");
    }
    let other = display_name(alloc, folder.as_path().as_str().as_bytes())?;
    format!(in alloc; "none of the torrent's files is in {shown}, but {other} has some")
}

/// The folder in a folder that has the torrent's name: none where that can be no folder's name.
fn folder_in(alloc: Global, torrent: &Torrent, dir: &str) -> Result<Option<PathBuf>, AllocError> {
    let Some(name) = folder_name(torrent.name()) else {
        return Ok(None);
    };
    let mut folder = PathBuf::from_str(alloc, dir)?;
    folder.push(name)?;
    Ok(Some(folder))
}

/// A torrent's name as that of a folder: a text that is no path, and leads nowhere else.
fn folder_name(name: &[u8]) -> Option<&str> {
    match str::from_utf8(name) {
        Ok("" | "." | "..") => None,
        Ok(text) if text.contains('/') => None,
        Ok(text) => Some(text),
        Err(_) => None,
    }
}

/// Whether one of a torrent's files, or something in its place, is in a folder.
fn has_file<R: Files + AllocGlobal>(
    rt: &R,
    torrent: &Torrent,
    dir: &str,
) -> Result<bool, AllocError> {
    for file in torrent.files() {
        let path = data_path(rt.alloc(), dir, &file.path)?;
        if fs::metadata(rt, path).is_ok() {
            return Ok(true);
        }
    }
    Ok(false)
}
