//! Which piece length a folder's files need.

use crate::folder::{EntryKind, FolderEntry, follow};
use bt_check::{Fault, found_path};
use bt_meta::{MAX_FILES, MAX_PATH_LENGTH, MAX_PIECES, MAX_TEXT_LENGTH};
use std::alloc::AllocError;
use std::fs;
use std::rt::Files;

/// The smallest piece length. Each other one is twice one.
const LEAST_LENGTH: u64 = 1 << 14;

/// How many there are: the greatest is 2^28.
const LENGTHS: u32 = 15;

/// At most how many bytes a torrent's text has for a file beside its path and its pieces, for each name of a path beside
/// that name, and for a piece.
const FILE_BYTES: u64 = 160;

const NAME_BYTES: u64 = 16;

const PIECE_BYTES: u64 = 32;

/// What is known of a folder's files: how long each is, and at most how many bytes the text has beside their pieces.
#[derive(Drop)]
struct Sizes {
    lengths: Vec<u64>,
    text: u64,
    is_refused: bool,
}

/// The smallest piece length at which a torrent of the files among these entries has no more pieces than it may have,
/// nor a longer text: none where no length is such, or they are too many files, or a path is too long.
pub fn fitting_length<R: Files + AllocGlobal>(
    rt: &R,
    dir: &str,
    entries: &[FolderEntry],
) -> Result<Option<u64>, Fault> {
    let sizes = sizes_of(rt, dir, entries)?;
    if sizes.is_refused || sizes.lengths.len() > MAX_FILES {
        return Ok(None);
    }
    let mut length = LEAST_LENGTH;
    for _ in 0..LENGTHS {
        if fits(&sizes, length) {
            return Ok(Some(length));
        }
        length = length.saturating_mul(2);
    }
    Ok(None)
}

/// Whether pieces of a length are few enough, and the text is short enough.
fn fits(sizes: &Sizes, length: u64) -> bool {
    let mut pieces: u64 = 0;
    for bytes in &sizes.lengths {
        pieces = pieces.saturating_add(bytes.div_ceil(length.max(1)));
    }
    let text = sizes
        .text
        .saturating_add(pieces.saturating_mul(PIECE_BYTES));
    pieces <= MAX_PIECES && text <= MAX_TEXT_LENGTH as u64
}

/// The sizes of the files among these entries of a folder: one that is not there any more has none.
fn sizes_of<R: Files + AllocGlobal>(
    rt: &R,
    dir: &str,
    entries: &[FolderEntry],
) -> Result<Sizes, Fault> {
    let mut sizes = Sizes {
        lengths: Vec::new(rt.alloc()),
        text: 0,
        is_refused: false,
    };
    let mut path = Vec::new(rt.alloc());
    for entry in entries {
        follow(&mut path, entry)?;
        match entry.kind {
            EntryKind::Folder => {}
            EntryKind::File => add_size(rt, dir, &path, &mut sizes)?,
        }
    }
    Ok(sizes)
}

/// Adds the file of a folder that has this path.
fn add_size<R: Files + AllocGlobal>(
    rt: &R,
    dir: &str,
    path: &[String],
    sizes: &mut Sizes,
) -> Result<(), AllocError> {
    let file = found_path(rt.alloc(), dir, path)?;
    let length = match fs::metadata(rt, file.as_path()) {
        Ok(metadata) => metadata.len(),
        Err(_) => 0,
    };
    sizes.lengths.push(length)?;
    sizes.is_refused = sizes.is_refused || path.len() > MAX_PATH_LENGTH;
    sizes.text = sizes.text.saturating_add(FILE_BYTES);
    for name in path {
        let bytes = (name.len() as u64).saturating_add(NAME_BYTES);
        sizes.text = sizes.text.saturating_add(bytes);
    }
    Ok(())
}
