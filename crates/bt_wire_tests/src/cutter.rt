//! Streams, whole and in parts.

use crate::bytes::{Words, push_shown};
use crate::message::push_event;
use bt_wire::{Cutter, WireError, WireEvent};
use std::alloc::{AllocError, Global};
use std::fmt::Write;

/// A cutter. Only small functions without a contract look into it, so that no other proof speaks of its bytes.
#[derive(Drop)]
pub struct Stream {
    cutter: Cutter,
}

pub fn new_stream(alloc: Global) -> Stream {
    Stream {
        cutter: Cutter::new(alloc),
    }
}

/// A call of the cutter.
pub fn cutter_row(
    alloc: Global,
    stream: &mut Stream,
    words: &mut Words,
    out: &mut String,
) -> Result<(), AllocError> {
    match words.word() {
        "new" => {
            *stream = new_stream(alloc);
            out.push_str("a cutter")
        }
        "feed" => feed_row(alloc, stream, words, out),
        "buffer" => buffer_row(alloc, stream, words, out),
        "next" => next_row(alloc, stream, out),
        "room" => room_row(stream, words, out),
        "turns" => turns_row(alloc, stream, words, out),
        _ => {
            words.are_wrong();
            Ok(())
        }
    }
}

fn feed(stream: &mut Stream, bytes: &[u8]) -> Result<(), WireError> {
    stream.cutter.feed(bytes)
}

/// Feeds the first `count` bytes of a buffer, or all, where it has no more.
fn feed_buffer(stream: &mut Stream, buffer: &mut Vec<u8>, count: usize) -> Result<(), WireError> {
    let count = count.min(buffer.len());
    stream.cutter.feed_buffer(buffer, count)
}

fn next(stream: &mut Stream) -> Result<Option<WireEvent>, WireError> {
    stream.cutter.next()
}

fn is_above(stream: &Stream, limit: usize) -> bool {
    stream.cutter.room() > limit
}

fn feed_row(
    alloc: Global,
    stream: &mut Stream,
    words: &mut Words,
    out: &mut String,
) -> Result<(), AllocError> {
    let bytes = words.bytes(alloc)?;
    push_fed(out, feed(stream, &bytes))
}

/// Feeds a buffer that has room for more bytes, as many as the first word says: what that answers, and what the buffer
/// has then.
fn buffer_row(
    alloc: Global,
    stream: &mut Stream,
    words: &mut Words,
    out: &mut String,
) -> Result<(), AllocError> {
    let room = words.number();
    let count = words.number();
    let mut buffer = words.bytes(alloc)?;
    buffer.reserve(room as usize)?;
    push_fed(out, feed_buffer(stream, &mut buffer, count as usize))?;
    out.push_str("; ")?;
    push_shown(alloc, out, &buffer)
}

fn push_fed(out: &mut String, fed: Result<(), WireError>) -> Result<(), AllocError> {
    match fed {
        Ok(()) => out.push_str("fed"),
        Err(error) => write!(out, "{error}"),
    }
}

/// What the next call gives.
fn next_row(alloc: Global, stream: &mut Stream, out: &mut String) -> Result<(), AllocError> {
    match next(stream) {
        Ok(Some(event)) => push_event(alloc, out, &event),
        Ok(None) => out.push_str("none"),
        Err(error) => write!(out, "{error}"),
    }
}

/// Whether the cutter has room for more bytes than a word says.
fn room_row(stream: &Stream, words: &mut Words, out: &mut String) -> Result<(), AllocError> {
    let limit = words.number();
    out.push_str(if is_above(stream, limit as usize) {
        "above "
    } else {
        "up to "
    })?;
    write!(out, "{limit}")
}

/// Feeds bytes as often as a word says, and takes what is there after each, which has to be the same, and in no more
/// room than this.
fn turns_row(
    alloc: Global,
    stream: &mut Stream,
    words: &mut Words,
    out: &mut String,
) -> Result<(), AllocError> {
    let count = words.number();
    let limit = words.number() as usize;
    let bytes = words.bytes(alloc)?;
    read_part(alloc, stream, &bytes, limit, out)?;
    push_other_turn(alloc, stream, &bytes, limit, count, out)
}

/// Takes the turns after the first, up to one that finds something else, which is added.
fn push_other_turn(
    alloc: Global,
    stream: &mut Stream,
    bytes: &[u8],
    limit: usize,
    count: u32,
    out: &mut String,
) -> Result<(), AllocError> {
    for _ in 1..count {
        if is_other_turn(alloc, stream, bytes, limit, out)? {
            break;
        }
    }
    Ok(())
}

fn is_other_turn(
    alloc: Global,
    stream: &mut Stream,
    bytes: &[u8],
    limit: usize,
    out: &mut String,
) -> Result<bool, AllocError> {
    let mut found = String::new(alloc);
    read_part(alloc, stream, bytes, limit, &mut found)?;
    push_other(out, found.as_str())
}

/// Adds a text that is another than the one that is there. Whether it is one.
fn push_other(out: &mut String, found: &str) -> Result<bool, AllocError> {
    if out.as_str() == found {
        return Ok(false);
    }
    out.push_str(" or else: ")?;
    out.push_str(found)?;
    Ok(true)
}

/// Feeds a part and takes what is there. After a fault nothing is fed.
fn read_part(
    alloc: Global,
    stream: &mut Stream,
    part: &[u8],
    limit: usize,
    found: &mut String,
) -> Result<(), AllocError> {
    if matches!(feed(stream, part), Err(WireError::OutOfMemory)) {
        return found.push_str("not fed;");
    }
    if is_above(stream, limit) {
        found.push_str("too much room;")?;
    }
    take_all(alloc, stream, found)
}

/// Takes the events that are there and puts them after the others; a fault is the last.
fn take_all(alloc: Global, stream: &mut Stream, found: &mut String) -> Result<(), AllocError> {
    for _ in 0..u64::MAX {
        if !take_one(alloc, stream, found)? {
            break;
        }
    }
    Ok(())
}

/// Adds what the next call gives. False where it gives nothing, or the cutter has failed before.
fn take_one(alloc: Global, stream: &mut Stream, found: &mut String) -> Result<bool, AllocError> {
    match next(stream) {
        Ok(Some(event)) => push_taken(alloc, found, &event),
        Ok(None) | Err(WireError::Failed) => Ok(false),
        Err(error) => push_fault(found, error),
    }
}

fn push_taken(alloc: Global, found: &mut String, event: &WireEvent) -> Result<bool, AllocError> {
    push_event(alloc, found, event)?;
    found.push_str(";")?;
    Ok(true)
}

fn push_fault(found: &mut String, error: WireError) -> Result<bool, AllocError> {
    write!(found, "{error};")?;
    Ok(true)
}

/// Adds what a stream says that comes in parts: each but the last has the number of bytes that stands here.
fn push_found(
    alloc: Global,
    bytes: &[u8],
    lengths: &[usize],
    found: &mut String,
) -> Result<(), AllocError> {
    let mut stream = new_stream(alloc);
    let mut rest = bytes;
    for length in lengths {
        let (part, more) = rest.split_at(rest.len().min(*length));
        read_part(alloc, &mut stream, part, usize::MAX, found)?;
        rest = more;
    }
    read_part(alloc, &mut stream, rest, usize::MAX, found)
}

/// Adds what a stream says that comes byte by byte.
fn push_found_by_byte(alloc: Global, bytes: &[u8], found: &mut String) -> Result<(), AllocError> {
    let mut stream = new_stream(alloc);
    for byte in bytes {
        read_part(alloc, &mut stream, &[*byte], usize::MAX, found)?;
    }
    Ok(())
}

/// What a stream says, whole and byte by byte.
pub fn stream_row(alloc: Global, words: &mut Words, out: &mut String) -> Result<(), AllocError> {
    let bytes = words.bytes(alloc)?;
    push_found(alloc, &bytes, &[], out)?;
    push_other_by_byte(alloc, &bytes, out)
}

fn push_other_by_byte(alloc: Global, bytes: &[u8], out: &mut String) -> Result<(), AllocError> {
    let mut found = String::new(alloc);
    push_found_by_byte(alloc, bytes, &mut found)?;
    if !push_other(out, found.as_str())? && found.is_empty() {
        return out.push_str("nothing");
    }
    Ok(())
}

/// What a stream says, whole and cut into two and into three in each way.
pub fn cuts_row(alloc: Global, words: &mut Words, out: &mut String) -> Result<(), AllocError> {
    let bytes = words.bytes(alloc)?;
    push_found(alloc, &bytes, &[], out)?;
    push_other_cut(alloc, &bytes, out)
}

/// Adds what a stream says else where it is cut, if there is such a cut.
fn push_other_cut(alloc: Global, bytes: &[u8], out: &mut String) -> Result<(), AllocError> {
    for first in 0..=bytes.len() {
        if is_other(alloc, bytes, &[first], out)? || is_other_second(alloc, bytes, first, out)? {
            break;
        }
    }
    Ok(())
}

/// Whether three parts, of which the first has this many bytes, say something else, which is added.
fn is_other_second(
    alloc: Global,
    bytes: &[u8],
    first: usize,
    out: &mut String,
) -> Result<bool, AllocError> {
    for second in 0..=bytes.len().saturating_sub(first) {
        if is_other(alloc, bytes, &[first, second], out)? {
            return Ok(true);
        }
    }
    Ok(false)
}

fn is_other(
    alloc: Global,
    bytes: &[u8],
    lengths: &[usize],
    out: &mut String,
) -> Result<bool, AllocError> {
    let mut found = String::new(alloc);
    push_found(alloc, bytes, lengths, &mut found)?;
    push_other(out, found.as_str())
}
