//! The row of a session.

use crate::partner::Reading;
use bt_rows::bytes_of;
use std::alloc::{AllocError, Global};

/// What a row says of a session.
#[derive(Drop)]
pub struct Row {
    pub turns: u64,
    /// Which call of the writer fails; 0 for none.
    pub fault: u64,
    /// What the reader finds.
    pub readings: Vec<Reading>,
}

/// The row of these words: how many turns, which call of the writer fails, and what the reader finds. None where they are no row.
pub fn row_of(alloc: Global, words: &str) -> Result<Option<Row>, AllocError> {
    let (turns, words) = words.split_once(' ').unwrap_or((words, ""));
    let (fault, words) = words.split_once(' ').unwrap_or((words, ""));
    match (turns.parse::<u64>(), fault.parse::<u64>()) {
        (Ok(turns), Ok(fault)) => row_from(alloc, turns, fault, words),
        _ => Ok(None),
    }
}

fn row_from(alloc: Global, turns: u64, fault: u64, words: &str) -> Result<Option<Row>, AllocError> {
    let mut readings = Vec::new(alloc);
    if !push_all(alloc, &mut readings, words)? {
        return Ok(None);
    }
    Ok(Some(Row {
        turns,
        fault,
        readings,
    }))
}

/// Adds what words say that the reader finds. False where one says nothing.
fn push_all(alloc: Global, readings: &mut Vec<Reading>, words: &str) -> Result<bool, AllocError> {
    for word in words.split_whitespace() {
        if !push_readings(alloc, readings, word)? {
            return Ok(false);
        }
    }
    Ok(true)
}

fn push_readings(
    alloc: Global,
    readings: &mut Vec<Reading>,
    word: &str,
) -> Result<bool, AllocError> {
    match word {
        "interrupted" => push(readings, Reading::Interrupted),
        "fault" => push(readings, Reading::Fault),
        _ => match word.strip_prefix("each:") {
            Some(word) => push_each(alloc, readings, word),
            None => push_bytes(alloc, readings, word),
        },
    }
}

fn push(readings: &mut Vec<Reading>, reading: Reading) -> Result<bool, AllocError> {
    readings.push(reading)?;
    Ok(true)
}

fn push_bytes(alloc: Global, readings: &mut Vec<Reading>, word: &str) -> Result<bool, AllocError> {
    match bytes_of(alloc, word)? {
        Some(bytes) => push(readings, Reading::Bytes(bytes)),
        None => Ok(false),
    }
}

/// Adds bytes that are found one by one.
fn push_each(alloc: Global, readings: &mut Vec<Reading>, word: &str) -> Result<bool, AllocError> {
    match bytes_of(alloc, word)? {
        Some(bytes) => push_one_by_one(alloc, readings, &bytes),
        None => Ok(false),
    }
}

fn push_one_by_one(
    alloc: Global,
    readings: &mut Vec<Reading>,
    bytes: &[u8],
) -> Result<bool, AllocError> {
    for byte in bytes {
        push(readings, Reading::Bytes(vec![in alloc; *byte; 1]?))?;
    }
    Ok(true)
}
