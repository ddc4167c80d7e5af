//! Bytes that an engine is fed from a caller's buffer.

use crate::answers::tell_done;
use crate::engine::TestEngine;
use crate::sessions::tell_written;
use bt_engine::{EngineError, PeerKey};
use bt_rows::bytes_of;
use std::alloc::{AllocError, Global};

/// Feeds the first bytes of a buffer, as many as the second word says, or all, where it has no more. Then tells what the
/// buffer has.
pub fn buffer_row(
    alloc: Global,
    engine: &mut TestEngine,
    words: &str,
    out: &mut String,
) -> Result<(), AllocError> {
    let (key, words) = words.split_once(' ').unwrap_or((words, ""));
    let (count, word) = words.split_once(' ').unwrap_or((words, ""));
    let key = PeerKey(key.parse().unwrap_or(0));
    let count = count.parse().unwrap_or(usize::MAX);
    match bytes_of(alloc, word)? {
        Some(buffer) => feed(alloc, engine, key, buffer, count, out),
        None => out.push_str("no bytes\n"),
    }
}

fn feed(
    alloc: Global,
    engine: &mut TestEngine,
    key: PeerKey,
    buffer: Vec<u8>,
    count: usize,
    out: &mut String,
) -> Result<(), AllocError> {
    let mut buffer = buffer;
    let fed = fed_from(engine, key, &mut buffer, count);
    tell_done(out, "fed\n", &fed)?;
    tell_written(alloc, out, &buffer)
}

fn fed_from(
    engine: &mut TestEngine,
    key: PeerKey,
    buffer: &mut Vec<u8>,
    count: usize,
) -> Result<(), EngineError> {
    let count = count.min(buffer.len());
    engine.feed_buffer(key, buffer, count)
}
