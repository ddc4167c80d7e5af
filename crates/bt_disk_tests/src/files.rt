//! Files of the system that rows make, and what the system itself says of them.

use crate::bytes::{tell_bytes, tell_whether};
use crate::shop::{Shop, is_opened};
use bt_rows::{RowError, Words, tell};
use std::alloc::{AllocError, Global};
use std::fs::{self, Permissions};
use std::io::{self, PipeReader, PipeWriter};
use std::os::fd::{AsRawFd, RawFd};
use std::os::unix;
use std::os::unix::fs::PermissionsExt;
use std::{env, process};

/// A folder of this run's own, empty.
pub fn new_folder(rt: &HostRuntime) -> anyhow::Result<String> {
    let top = env::temp_dir(rt)?;
    let Some(top) = top.to_str() else {
        anyhow::bail!("a folder whose name is no text");
    };
    let id = process::id(rt.process());
    let path = format!(in rt.alloc(); "{top}/bt_disk_tests-{id}")?;
    clear_folder(rt, path.as_str());
    fs::create_dir(rt, path.as_str())?;
    Ok(path)
}

/// Removes a folder, if it is there.
pub fn clear_folder(rt: &HostRuntime, path: &str) {
    let _ = fs::remove_dir_all(rt, path);
}

/// The path that a word names: of a file of the folder, or as it stands where it begins with a slash.
pub fn path_of(alloc: Global, top: &str, word: &str) -> Result<String, AllocError> {
    if word.starts_with('/') {
        String::from_str(alloc, word)
    } else {
        format!(in alloc; "{top}/{word}")
    }
}

/// What the system is asked for, by its name.
pub fn disk_row(shop: &Shop, words: &mut Words, out: &mut String) -> Result<(), RowError> {
    match words.word() {
        "file" => write_row(shop, words, out),
        "bytes" => found_row(shop, words, out),
        "alike" => alike_row(shop, words, out),
        "pipe" => pipe_row(shop, out),
        name => change_row(shop, name, words, out),
    }
}

/// Whether the system did it.
fn tell_asked(out: &mut String, asked: io::Result<()>) -> Result<(), RowError> {
    tell_whether(out, asked.is_ok(), "done", "refused")
}

/// A file with these bytes.
fn write_row(shop: &Shop, words: &mut Words, out: &mut String) -> Result<(), RowError> {
    let path = shop.path(words)?;
    let bytes = words.bytes(shop.alloc())?;
    tell_asked(out, fs::write(shop.host, path.as_str(), &bytes))
}

fn found_row(shop: &Shop, words: &mut Words, out: &mut String) -> Result<(), RowError> {
    let path = shop.path(words)?;
    tell_found(shop, path.as_str(), out)
}

/// The bytes that the system reads.
fn tell_found(shop: &Shop, path: &str, out: &mut String) -> Result<(), RowError> {
    match fs::read(shop.host, path) {
        Ok(bytes) => tell_bytes(shop.alloc(), out, &bytes),
        Err(_) => tell(out, "refused"),
    }
}

fn change_row(
    shop: &Shop,
    name: &str,
    words: &mut Words,
    out: &mut String,
) -> Result<(), RowError> {
    let path = shop.path(words)?;
    tell_changed(shop, name, path.as_str(), words, out)
}

/// Whether the system removes the file at a path, makes a folder or a link there, takes all rights from it, or
/// gives it another path.
fn tell_changed(
    shop: &Shop,
    name: &str,
    path: &str,
    words: &mut Words,
    out: &mut String,
) -> Result<(), RowError> {
    match name {
        "remove" => tell_asked(out, fs::remove_file(shop.host, path)),
        "folder" => tell_asked(out, fs::create_dir(shop.host, path)),
        "link" => link_row(shop, path, words, out),
        "close" => tell_asked(out, without_rights(shop.host, path)),
        "move" => move_row(shop, path, words, out),
        _ => Err(RowError::Unread),
    }
}

/// A symbolic link that leads to the path of the next word.
fn link_row(shop: &Shop, link: &str, words: &mut Words, out: &mut String) -> Result<(), RowError> {
    let path = shop.path(words)?;
    tell_asked(out, unix::fs::symlink(shop.host, path.as_str(), link))
}

/// The path of the next word is the new one.
fn move_row(shop: &Shop, path: &str, words: &mut Words, out: &mut String) -> Result<(), RowError> {
    let new_path = shop.path(words)?;
    tell_asked(out, fs::rename(shop.host, path, new_path.as_str()))
}

fn without_rights(host: &HostRuntime, path: &str) -> io::Result<()> {
    fs::set_permissions(host, path, Permissions::from_mode(0))
}

/// Whether a device reads a file just where the system does.
fn alike_row(shop: &Shop, words: &mut Words, out: &mut String) -> Result<(), RowError> {
    let path = shop.path(words)?;
    let is_alike = is_alike(shop.host, path.as_str());
    tell_whether(out, is_alike, "alike", "other than the system")
}

fn is_alike(host: &HostRuntime, path: &str) -> bool {
    is_opened(host, false, path) == fs::read(host, path).is_ok()
}

/// A pipe that has no bytes and a writer, so that opening or reading it may wait: whether each of its open ends
/// is refused by its path.
fn pipe_row(shop: &Shop, out: &mut String) -> Result<(), RowError> {
    match io::pipe(shop.host) {
        Ok((reader, writer)) => tell_ends(shop, &reader, &writer, out),
        Err(_) => tell(out, "no pipe"),
    }
}

fn tell_ends(
    shop: &Shop,
    reader: &PipeReader,
    writer: &PipeWriter,
    out: &mut String,
) -> Result<(), RowError> {
    tell_end(shop, reader.as_raw_fd(), out)?;
    tell(out, ", ")?;
    tell_end(shop, writer.as_raw_fd(), out)
}

fn tell_end(shop: &Shop, end: RawFd, out: &mut String) -> Result<(), RowError> {
    let path = format!(in shop.alloc(); "/proc/self/fd/{end}")?;
    let path = path.as_str();
    let is_opened = is_opened(shop.host, false, path) || is_opened(shop.host, true, path);
    tell_whether(out, is_opened, "opened", "fault")
}
