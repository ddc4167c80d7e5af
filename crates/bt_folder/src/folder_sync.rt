//! Folders that are made, and kept with what was made in them.
ghost use Rattle.std.specs.Prelude.{◌≡◌, ◌<◌, ◌↔◌, ◌⊎◌, IsTrue, length, option_copied};
ghost use Rattle.bt_folder.specs.FolderSync.{folder_above, or_dot};

use bt_disk::DeviceFault;
use std::fs::{Files, OpenFile, OpenOptions};
use std::io::ErrorKind;
use std::path::Path;

/// Makes sure that what was made, renamed or removed in a folder is there, or gone, after a crash. The empty path
/// is the folder that the program runs in.
///
/// A folder that may not be read, and one of a file system that syncs no folders, is no fault: nothing more can be
/// done for it. Errors: any other call that fails.
pub fn sync_folder<R: Files>(rt: &R, folder: &str) -> Result<(), DeviceFault> {
    let synced = match OpenOptions::new().read(true).open(rt, or_dot(folder)) {
        Ok(file) => file.sync_all(),
        Err(error) => Err(error),
    };
    match synced {
        Ok(()) => Ok(()),
        Err(error) if is_beyond(error.kind()) => Ok(()),
        Err(_) => Err(DeviceFault),
    }
}

/// Whether an error of the system says that a folder can't be synced whatever is done: it may not be read, or its
/// file system has no sync of folders.
fn is_beyond(kind: ErrorKind) -> bool
    ensures { IsTrue result ↔ ((kind ≡ ErrorKind.PermissionDenied)
        ⊎ (kind ≡ ErrorKind.InvalidInput) ⊎ (kind ≡ ErrorKind.Unsupported)) }
{
    matches!(
        kind,
        ErrorKind::PermissionDenied | ErrorKind::InvalidInput | ErrorKind::Unsupported
    )
}

/// Makes a folder, and those above it, where they are missing. What is made is kept: the folder above each is
/// synced. The empty path is the folder that the program runs in.
///
/// Errors: a folder can't be made or synced, or something else lies there.
pub fn make_folders<R: Files>(rt: &R, folder: &str) -> Result<(), DeviceFault> {
    if folder.is_empty() || is_folder(rt, folder) {
        return Ok(());
    }
    for end in present_len(rt, folder) + 1..folder.len() {
        if let Some(above) = before_slash(folder, end) {
            make_folder(rt, above)?;
        }
    }
    make_folder(rt, folder)
}

/// How long the longest part of a path before a slash is that is a folder; none is 0.
fn present_len<R: Files>(rt: &R, path: &str) -> usize
    ensures { result < length path.now ⊎ (result ≡ 0) }
{
    for end in (1..path.len()).rev() {
        if before_slash(path, end).is_some_and(|above| is_folder(rt, above)) {
            return end;
        }
    }
    0
}

/// The part of a path before a byte, which is a slash.
fn before_slash(path: &str, end: usize) -> Option<&str> {
    match path.split_at_checked(end) {
        Some((above, rest)) if rest.starts_with('/') => Some(above),
        _ => None,
    }
}

/// Makes a folder where it is missing, and syncs the one above it then.
fn make_folder<R: Files>(rt: &R, folder: &str) -> Result<(), DeviceFault> {
    match rt.create_dir(folder) {
        Ok(()) => sync_above(rt, folder),
        Err(_) if is_folder(rt, folder) => Ok(()),
        Err(_) => Err(DeviceFault),
    }
}

/// Syncs the folder that a path's last name lies in.
fn sync_above<R: Files>(rt: &R, path: &str) -> Result<(), DeviceFault> {
    match folder_above(path) {
        Some(folder) => sync_folder(rt, folder),
        None => Ok(()),
    }
}

/// The folder that the last name of a path lies in. The dot is the one that the program runs in. A path has none that
/// ends in `..`, or in no name: the empty one, the root, the dot alone.
pub fn folder_above(path: &str) -> Option<&str>
    ensures { option_copied result ≡ folder_above path.now }
{
    let path = Path::new(path);
    let _name = path.file_name()?;
    let folder = path.parent()?;
    Some(or_dot(folder.as_str()))
}

/// A path, where the dot stands for the empty one, which the system's calls don't take.
pub fn or_dot(path: &str) -> &str
    ensures { result.now ≡ or_dot path.now }
{
    if path.is_empty() { "." } else { path }
}

fn is_folder<R: Files>(rt: &R, path: &str) -> bool {
    match rt.metadata(path) {
        Ok(metadata) => metadata.is_dir(),
        Err(_) => false,
    }
}
