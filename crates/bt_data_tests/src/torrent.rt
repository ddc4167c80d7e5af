//! Torrents that are read, and what lies where in them.

use crate::bytes::{push_shown, push_text};
use crate::names::Words;
use bt_bencode::{BencodeError, first_fault_is_one, spellings_are_prefix_free};
use bt_meta::{
    FileEntry, FilePath, MakeError, MetaError, Torrent, block_ranges_are_places,
    blocks_and_ranges_agree, layers_are_of_trees, read_info, read_torrent,
};
use bt_parts::{lines_are_read_back, shares_are_whole, sums_are_whole};
use bt_rows::push_hex;
use bt_tree::LayerError;
use std::alloc::{AllocError, Global};
use std::fmt::Write;

pub fn torrent_row(
    alloc: Global,
    torrent: &mut Option<Torrent>,
    words: &mut Words,
    out: &mut String,
) -> Result<(), AllocError> {
    match words.word() {
        "read" => {
            let text = words.bytes(alloc)?;
            take(alloc, torrent, read_torrent(alloc, &text), out)
        }
        "info" => {
            let text = words.bytes(alloc)?;
            take(alloc, torrent, read_info(alloc, &text), out)
        }
        "prefixes" => prefixes_row(alloc, words, out),
        name => place_row(torrent, name, words, out),
    }
}

/// Tells of a torrent, and keeps it; or why there is none.
pub fn take(
    alloc: Global,
    place: &mut Option<Torrent>,
    read: Result<Torrent, MetaError>,
    out: &mut String,
) -> Result<(), AllocError> {
    match read {
        Ok(torrent) => {
            push_torrent(alloc, out, &torrent)?;
            *place = Some(torrent);
            Ok(())
        }
        Err(error) => write!(out, "{error}"),
    }
}

/// Its name, its pieces and its infohash, and each file.
fn push_torrent(alloc: Global, out: &mut String, torrent: &Torrent) -> Result<(), AllocError> {
    push_text(out, torrent.name())?;
    write!(
        out,
        ": {} pieces of {}, infohash ",
        torrent.pieces(),
        torrent.piece_length()
    )?;
    push_hex(alloc, out, &torrent.infohash())?;
    for file in torrent.files() {
        push_file(alloc, out, file)?;
    }
    Ok(())
}

/// Its path, its length, its root, its first piece and its layer.
fn push_file(alloc: Global, out: &mut String, file: &FileEntry) -> Result<(), AllocError> {
    out.push_str("; ")?;
    push_path(out, &file.path)?;
    write!(out, " {} bytes of ", file.length)?;
    push_hex(alloc, out, &file.root)?;
    write!(out, " from piece {}, layer ", file.first_piece)?;
    push_shown(alloc, out, &file.layer)
}

fn push_path(out: &mut String, path: &FilePath) -> Result<(), AllocError> {
    for element in path.elements().as_slice() {
        out.push('/')?;
        out.push_str(element)?;
    }
    Ok(())
}

/// How many proper prefixes a text has, and how many of them are refused for their end, and there.
fn prefixes_row(alloc: Global, words: &mut Words, out: &mut String) -> Result<(), AllocError> {
    let text = words.bytes(alloc)?;
    let mut count = 0u64;
    for length in 0..text.len() {
        if is_truncated(alloc, &text[..length]) {
            count = count.wrapping_add(1);
        }
    }
    write!(out, "{} prefixes, {count} truncated", text.len())
}

fn is_truncated(alloc: Global, prefix: &[u8]) -> bool {
    match read_torrent(alloc, prefix) {
        Err(MetaError::Bencode(BencodeError::Truncated(offset))) => offset == prefix.len(),
        _ => false,
    }
}

fn place_row(
    torrent: &Option<Torrent>,
    name: &str,
    words: &mut Words,
    out: &mut String,
) -> Result<(), AllocError> {
    let Some(torrent) = torrent else {
        return out.push_str("no torrent");
    };
    match name {
        "place" => push_place(torrent, words, out),
        "blocks" => push_blocks(torrent, words, out),
        "range" => push_range(torrent, words, out),
        _ => {
            words.are_wrong();
            Ok(())
        }
    }
}

/// Where a range of a piece lies.
fn push_place(torrent: &Torrent, words: &mut Words, out: &mut String) -> Result<(), AllocError> {
    let piece = words.number();
    let begin = words.number();
    let length = words.number();
    match torrent.place(piece, begin, length) {
        Some(span) => write!(
            out,
            "file {} from byte {}, {} bytes",
            span.file, span.start, span.length
        ),
        None => out.push_str("nowhere"),
    }
}

/// The blocks of a piece.
fn push_blocks(torrent: &Torrent, words: &mut Words, out: &mut String) -> Result<(), AllocError> {
    match torrent.blocks_of(words.number()) {
        Some(run) => write!(
            out,
            "file {} from block {}, {} blocks",
            run.file, run.first, run.count
        ),
        None => out.push_str("none"),
    }
}

/// The range of a block of a file.
fn push_range(torrent: &Torrent, words: &mut Words, out: &mut String) -> Result<(), AllocError> {
    let file = words.number();
    let block = words.number();
    match torrent.range_of(file, block) {
        Some(range) => write!(
            out,
            "piece {} from byte {}, {} bytes",
            range.piece, range.begin, range.length
        ),
        None => out.push_str("none"),
    }
}

/// The texts of errors that no row brings about.
pub fn texts_row(out: &mut String) -> Result<(), AllocError> {
    write!(out, "{}, ", BencodeError::Trailing(usize::MAX))?;
    write!(out, "{}, ", BencodeError::OutOfMemory)?;
    write!(out, "{}, ", LayerError::OutOfMemory)?;
    write!(out, "{}, ", MetaError::OutOfMemory)?;
    write!(out, "{}", MakeError::OutOfMemory)
}

/// The laws, which do nothing when they run.
pub fn laws_row(out: &mut String) -> Result<(), AllocError> {
    spellings_are_prefix_free();
    first_fault_is_one();
    blocks_and_ranges_agree();
    layers_are_of_trees();
    block_ranges_are_places();
    sums_are_whole();
    shares_are_whole();
    lines_are_read_back();
    out.push_str("nothing is done")
}
