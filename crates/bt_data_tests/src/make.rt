//! Torrents that are made.

use crate::bytes::push_shown;
use crate::names::Words;
use crate::stage::Objects;
use crate::torrent::take;
use bt_meta::{Made, MadeTorrent, Torrent, make, make_torrent, read_torrent};
use bt_rows::push_hex;
use bt_tree::Hash32;
use std::alloc::{AllocError, Global};
use std::fmt::Write;

pub fn make_row(
    alloc: Global,
    objects: &mut Objects,
    words: &mut Words,
    out: &mut String,
) -> Result<(), AllocError> {
    match words.word() {
        "files" => files_row(alloc, &mut objects.files, words, out),
        "torrent" => made_row(alloc, objects, words, out),
        "infohash" => infohash_row(alloc, objects, words, out),
        _ => {
            words.are_wrong();
            Ok(())
        }
    }
}

/// Adds as many files as a word says, of this path, length, root and layer.
fn files_row(
    alloc: Global,
    files: &mut Vec<Made>,
    words: &mut Words,
    out: &mut String,
) -> Result<(), AllocError> {
    let count = words.number();
    let path = words.bytes(alloc)?;
    let length = words.long();
    let root = words.array(alloc)?;
    let layer = words.bytes(alloc)?;
    let Ok(path) = str::from_utf8(&path) else {
        return out.push_str("no path");
    };
    push_files(alloc, files, count, path, length, root, &layer)?;
    write!(out, "{} files", files.len())
}

fn push_files(
    alloc: Global,
    files: &mut Vec<Made>,
    count: u32,
    path: &str,
    length: u64,
    root: Hash32,
    layer: &[u8],
) -> Result<(), AllocError> {
    for _ in 0..count {
        files.push(file_of(alloc, path, length, root, layer)?)?;
    }
    Ok(())
}

fn file_of(
    alloc: Global,
    path: &str,
    length: u64,
    root: Hash32,
    layer: &[u8],
) -> Result<Made, AllocError> {
    let path = elements(alloc, path)?;
    let layer = Vec::from_slice(alloc, layer)?;
    Ok(Made {
        path,
        length,
        root,
        layer,
    })
}

/// The elements of a path, which are separated by `/`.
fn elements(alloc: Global, path: &str) -> Result<Vec<String>, AllocError> {
    let mut elements = Vec::new(alloc);
    let mut rest = path;
    for _ in 0..path.len() {
        match rest.split_once('/') {
            Some((element, more)) => {
                push_element(alloc, &mut elements, element)?;
                rest = more;
            }
            None => break,
        }
    }
    push_element(alloc, &mut elements, rest)?;
    Ok(elements)
}

fn push_element(
    alloc: Global,
    elements: &mut Vec<String>,
    element: &str,
) -> Result<(), AllocError> {
    elements.push(String::from_str(alloc, element)?)?;
    Ok(())
}

/// The text of the torrent of these files, with this name and piece length, and the torrent that is read from
/// it; or the refusal. No file is left then.
fn made_row(
    alloc: Global,
    objects: &mut Objects,
    words: &mut Words,
    out: &mut String,
) -> Result<(), AllocError> {
    let name = words.bytes(alloc)?;
    let piece_length = words.number();
    match make(alloc, &name, piece_length, &objects.files) {
        Ok(text) => read_back(alloc, &mut objects.torrent, &text, out)?,
        Err(error) => write!(out, "{error}")?,
    }
    objects.files.clear();
    Ok(())
}

fn read_back(
    alloc: Global,
    torrent: &mut Option<Torrent>,
    text: &[u8],
    out: &mut String,
) -> Result<(), AllocError> {
    push_shown(alloc, out, text)?;
    out.push_str(" is ")?;
    take(alloc, torrent, read_torrent(alloc, text), out)
}

/// The same by `make_torrent`: first the infohash that it gives.
fn infohash_row(
    alloc: Global,
    objects: &mut Objects,
    words: &mut Words,
    out: &mut String,
) -> Result<(), AllocError> {
    let name = words.bytes(alloc)?;
    let piece_length = words.number();
    match make_torrent(alloc, &name, piece_length, &objects.files) {
        Ok(made) => push_made(alloc, &mut objects.torrent, &made, out)?,
        Err(error) => write!(out, "{error}")?,
    }
    objects.files.clear();
    Ok(())
}

fn push_made(
    alloc: Global,
    torrent: &mut Option<Torrent>,
    made: &MadeTorrent,
    out: &mut String,
) -> Result<(), AllocError> {
    push_hex(alloc, out, &made.infohash)?;
    out.push_str(" of ")?;
    read_back(alloc, torrent, &made.text, out)
}
