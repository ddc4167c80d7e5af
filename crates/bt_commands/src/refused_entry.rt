//! Which entry of a torrent's file tree a refusal is about. No clause says what is told of it: where memory is short, or
//! the torrent's file is another one by now, that may be nothing, or another entry.

use crate::refused_tree::{Search, first_below};
use bt_bencode::{Value, field, parse};
use bt_check::{BUFFER_LEN, Fault, Source, display_name, read_text};
use bt_meta::{MAX_TEXT_LENGTH, MetaError};
use bt_progress::Watch;
use std::alloc::{AllocError, Global};
use std::fs;
use std::rt::Files;

/// At a terminal, and where that was asked for, tells at which entry a torrent was refused.
pub fn hint_at_entry<T, R: Files + AllocGlobal, P: Watch>(
    rt: &R,
    watch: &P,
    source: Option<Source<'_>>,
    outcome: &Result<T, Fault>,
) {
    if let Err(Fault::Torrent(refusal)) = outcome
        && watch.is_verbose()
    {
        if let Some(source) = source
            && let Ok(Some(text)) = entry_text(rt, source, *refusal)
        {
            watch.hint(text.as_str());
        }
    }
}

/// The text that tells which entry it is: none where none is to blame.
fn entry_text<R: Files + AllocGlobal>(
    rt: &R,
    source: Source<'_>,
    refusal: MetaError,
) -> Result<Option<String>, Fault> {
    let alloc = rt.alloc();
    let Some(text) = text_again(rt, source.path)? else {
        return Ok(None);
    };
    if text.len() > MAX_TEXT_LENGTH {
        let told = format!(in alloc; "the torrent has more than {MAX_TEXT_LENGTH} bytes")?;
        return Ok(Some(told));
    }
    let Ok(doc) = parse(alloc, &text) else {
        return Ok(None);
    };
    let Some(path) = refused_in(alloc, doc.value(), source.is_info, refusal)? else {
        return Ok(None);
    };
    Ok(Some(format!(in alloc; "the entry {path} of the torrent is refused")?))
}

/// The text of the torrent once more: none where its file is no regular one, which can be read only once.
fn text_again<R: Files + AllocGlobal>(rt: &R, path: &str) -> Result<Option<Vec<u8>>, Fault> {
    match fs::metadata(rt, path) {
        Ok(metadata) if metadata.is_file() => {}
        _ => return Ok(None),
    }
    let Ok(file) = fs::open(rt, path) else {
        return Ok(None);
    };
    let mut file = file;
    let mut buffer = [0; BUFFER_LEN];
    Ok(Some(read_text(rt.alloc(), &mut file, &mut buffer)?))
}

/// The path of the entry that is refused in a torrent, or in an info dictionary: none where there is none.
fn refused_in(
    alloc: Global,
    value: &Value,
    is_info: bool,
    refusal: MetaError,
) -> Result<Option<String>, AllocError> {
    let Some(info) = info_of(value, is_info) else {
        return Ok(None);
    };
    let Some(tree) = field(info, b"file tree") else {
        return Ok(None);
    };
    let mut search = Search::new(alloc, refusal, value, info);
    match first_below(alloc, &mut search, tree)? {
        Some(names) => Ok(Some(path_text(alloc, &names)?)),
        None => Ok(None),
    }
}

/// The info dictionary of a torrent, or itself.
fn info_of(value: &Value, is_info: bool) -> Option<&Value> {
    if is_info {
        Some(value)
    } else {
        field(value, b"info")
    }
}

/// A path as it is printed, of which the last name comes first.
fn path_text(alloc: Global, names: &[&[u8]]) -> Result<String, AllocError> {
    let mut path = String::new(alloc);
    for name in names.iter().rev() {
        if !path.is_empty() {
            path.push('/')?;
        }
        let shown = display_name(alloc, name)?;
        path.push_str(shown.as_str())?;
    }
    Ok(path)
}
