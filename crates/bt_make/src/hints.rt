//! What `make` tells beside its results, at a terminal and where that was asked for. Where memory is short, nothing is
//! told; no clause says what is.

use crate::advice::fitting_length;
use crate::folder::{EntryKind, FolderEntry, files_in};
use crate::left_out::LeftOut;
use bt_check::{Fault, display_name, found_path};
use bt_meta::{MAX_FILE_LENGTH, MAX_FILES, MAX_PATH_LENGTH, MAX_PIECES, Made, MakeError};
use bt_progress::Watch;
use bt_tree::Hash32;
use std::alloc::{AllocError, Global};
use std::collections::BTreeMap;
use std::fs;
use std::rt::Files;

/// Tells that other clients do not take a torrent's name as it is.
pub fn hint_at_name<P: Watch>(watch: &P, name: &str) {
    if is_odd(name) {
        watch.hint(
            "other clients make a folder of this name: it is better not empty, `.` or `..`, and without slashes",
        );
    }
}

/// Whether a name is none of a folder: empty, `.` or `..`, or with a slash or a zero in it.
fn is_odd(name: &str) -> bool {
    match name {
        "" | "." | ".." => true,
        _ => name.contains('/') || name.contains('\0'),
    }
}

/// Where a file is in the folder's place, tells what to do.
pub fn hint_at_file<R: Files, P: Watch>(rt: &R, watch: &P, dir: &str) {
    if !watch.is_verbose() {
        return;
    }
    if let Ok(metadata) = fs::metadata(rt, dir)
        && metadata.is_file()
    {
        watch.hint("DIR is a file: put it into a folder of its own, and name that");
    }
}

/// Tells how many entries of a folder a torrent leaves out, and how many folders in it have none that it takes.
pub fn hint_at_left_out<R: Files + AllocGlobal + Clone + Drop, P: Watch>(
    rt: &R,
    watch: &P,
    dir: &str,
    entries: &[FolderEntry],
) {
    if !watch.is_verbose() {
        return;
    }
    if let Ok(left_out) = LeftOut::of_folder(rt, dir, entries)
        && !left_out.is_nothing()
    {
        if let Ok(text) = left_out.text(rt.alloc()) {
            watch.hint(text.as_str());
        }
    }
}

/// Tells in which folder a name is refused.
pub fn hint_at_bad_name<T, P: Watch>(
    alloc: Global,
    watch: &P,
    folder: &str,
    outcome: &Result<T, Fault>,
) {
    if let Err(Fault::Make(MakeError::BadPath)) = outcome
        && watch.is_verbose()
    {
        if let Ok(text) = bad_name_text(alloc, folder) {
            watch.hint(text.as_str());
        }
    }
}

fn bad_name_text(alloc: Global, folder: &str) -> Result<String, AllocError> {
    let folder = display_name(alloc, folder.as_bytes())?;
    format!(in alloc; "a name in {folder} is not UTF-8")
}

/// Tells at which file of a folder a limit is passed, where there are `files` files before it, and which.
pub fn hint_at_limit<P: Watch>(
    alloc: Global,
    watch: &P,
    dir: &str,
    path: &[String],
    files: usize,
    length: u64,
) {
    if watch.is_verbose() {
        if let Ok(text) = limit_text(alloc, dir, path, files, length) {
            watch.hint(text.as_str());
        }
    }
}

fn limit_text(
    alloc: Global,
    dir: &str,
    path: &[String],
    files: usize,
    length: u64,
) -> Result<String, AllocError> {
    let name = shown_path(alloc, dir, path)?;
    if length > MAX_FILE_LENGTH {
        format!(in alloc; "{name} has more than {MAX_FILE_LENGTH} bytes")
    } else if path.len() > MAX_PATH_LENGTH {
        format!(in alloc; "{name} has more than {MAX_PATH_LENGTH} names below the folder")
    } else if files >= MAX_FILES {
        format!(in alloc; "a torrent has {MAX_FILES} files at most: {name} is one more")
    } else {
        format!(in alloc;
            "a torrent has {MAX_PIECES} pieces at most: {name} has more than are left"
        )
    }
}

/// Where no torrent was made because two files of a folder have one root and other lengths, tells which these are.
pub fn hint_at_conflict<T, P: Watch>(
    alloc: Global,
    watch: &P,
    dir: &str,
    files: &[Made],
    outcome: &Result<T, MakeError>,
) {
    if let Err(MakeError::RootConflict) = outcome
        && watch.is_verbose()
    {
        if let Ok(Some((file, other))) = conflict_among(alloc, files)
            && let Ok(text) = conflict_text(alloc, dir, &file.path, &other.path)
        {
            watch.hint(text.as_str());
        }
    }
}

/// The first file that has the root of one before it and another length, behind that one.
fn conflict_among(alloc: Global, files: &[Made]) -> Result<Option<(&Made, &Made)>, AllocError> {
    let mut known: BTreeMap<&Hash32, &Made> = BTreeMap::new(alloc);
    for file in files {
        match known.get(&&file.root) {
            Some(other) if other.length != file.length => return Ok(Some((other, file))),
            Some(_) => {}
            None => {
                known.insert(&file.root, file)?;
            }
        }
    }
    Ok(None)
}

fn conflict_text(
    alloc: Global,
    dir: &str,
    path: &[String],
    other: &[String],
) -> Result<String, AllocError> {
    let file = shown_path(alloc, dir, path)?;
    let other = shown_path(alloc, dir, other)?;
    format!(in alloc; "{other} has the pieces root of {file}, and another length")
}

/// The path of a file of a folder, as it is printed.
fn shown_path(alloc: Global, dir: &str, path: &[String]) -> Result<String, AllocError> {
    let file = found_path(alloc, dir, path)?;
    display_name(alloc, file.as_path().as_str().as_bytes())
}

/// Tells that a file of a folder has another length than it had before it was read. Where a call on it failed, that is
/// told in its place.
pub fn hint_at_change<R: Files + AllocGlobal, P: Watch>(rt: &R, watch: &P, path: &str, bytes: u64) {
    if !watch.is_verbose() {
        return;
    }
    if let Ok(metadata) = fs::metadata(rt, path)
        && metadata.len() != bytes
    {
        if let Ok(text) = change_text(rt.alloc(), path, bytes, metadata.len()) {
            watch.hint(text.as_str());
        }
    }
}

fn change_text(alloc: Global, path: &str, was: u64, is: u64) -> Result<String, AllocError> {
    let name = display_name(alloc, path.as_bytes())?;
    format!(in alloc; "{name} had {was} bytes, and has {is} by now")
}

/// Where no torrent was made because there would be too much of something, or there is no file, tells that, or the
/// smallest piece length that would do, if that is a greater one.
pub fn hint_at_length<T, R: Files + AllocGlobal + Clone + Drop, P: Watch>(
    rt: &R,
    watch: &P,
    dir: &str,
    piece_length: u32,
    outcome: &Result<T, Fault>,
) {
    if let Err(Fault::Make(MakeError::Count)) = outcome
        && watch.is_verbose()
    {
        if let Ok(Some(text)) = length_text(rt, watch, dir, piece_length) {
            watch.hint(text.as_str());
        }
    }
}

fn length_text<R: Files + AllocGlobal + Clone + Drop, P: Watch>(
    rt: &R,
    watch: &P,
    dir: &str,
    piece_length: u32,
) -> Result<Option<String>, Fault> {
    let alloc = rt.alloc();
    let entries = files_in(rt, watch, dir)?;
    if entries.iter().all(|entry| is_folder(entry)) {
        return Ok(Some(String::from_str(alloc, "the folder has no file")?));
    }
    match fitting_length(rt, dir, &entries)? {
        Some(length) if length > piece_length as u64 => {
            let text = format!(in alloc; "--piece-length {length} is the smallest that fits")?;
            Ok(Some(text))
        }
        _ => Ok(None),
    }
}

fn is_folder(entry: &FolderEntry) -> bool {
    match entry.kind {
        EntryKind::File => false,
        EntryKind::Folder => true,
    }
}
