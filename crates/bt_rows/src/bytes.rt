//! Bytes as words spell them, and as answers show them.

use bt_tree::{NodeHash, Plain};
use std::alloc::{AllocError, Global};
use std::fmt::Write;

/// How words spell bytes.
pub trait Spelling {
    /// The bytes that a word spells: not one, where it is `-`. None where it is no such word.
    fn spelled(&self, alloc: Global, word: &str) -> Result<Option<Vec<u8>>, AllocError>;
}

/// The spelling of `bytes_of`.
#[derive(Clone, Copy)]
pub struct Hexadecimal;

impl Spelling for Hexadecimal {
    fn spelled(&self, alloc: Global, word: &str) -> Result<Option<Vec<u8>>, AllocError> {
        if word == "-" {
            return Ok(Some(Vec::new(alloc)));
        }
        bytes_of(alloc, word)
    }
}

/// The bytes that a word spells: parts that are joined by `+`. None where it is no such word. Errors: out of memory.
pub fn bytes_of(alloc: Global, word: &str) -> Result<Option<Vec<u8>>, AllocError> {
    let mut bytes = Vec::new(alloc);
    if push_parts(alloc, &mut bytes, word)? {
        return Ok(Some(bytes));
    }
    Ok(None)
}

/// Adds the bytes of all parts. False where one of them is none.
fn push_parts(alloc: Global, bytes: &mut Vec<u8>, word: &str) -> Result<bool, AllocError> {
    for part in word.split('+') {
        if !push_part(alloc, bytes, part)? {
            return Ok(false);
        }
    }
    Ok(!word.is_empty())
}

/// Adds the bytes of one part: bytes in hexadecimal, with `*COUNT` after them where they stand COUNT
/// times; or `FROM..END:HEX`, each number from FROM up to END in four bytes, the high one first, with HEX
/// after each. False where it is none.
fn push_part(alloc: Global, bytes: &mut Vec<u8>, part: &str) -> Result<bool, AllocError> {
    match part.split_once(':') {
        Some((range, digits)) => push_numbers(alloc, bytes, range, digits),
        None => push_often(alloc, bytes, part),
    }
}

fn push_often(alloc: Global, bytes: &mut Vec<u8>, part: &str) -> Result<bool, AllocError> {
    let (digits, times) = part.split_once('*').unwrap_or((part, "1"));
    let Ok(count) = times.parse::<u32>() else {
        return Ok(false);
    };
    match hex::decode(alloc, digits) {
        Ok(run) => {
            push_run(bytes, &run, count)?;
            Ok(true)
        }
        Err(_) => Ok(false),
    }
}

/// Adds a run of bytes `count` times. Errors: out of memory.
pub fn push_run(bytes: &mut Vec<u8>, run: &[u8], count: u32) -> Result<(), AllocError> {
    if let [byte] = run {
        return bytes.resize(bytes.len().saturating_add(count as usize), *byte);
    }
    for _ in 0..count {
        bytes.extend_from_slice(run)?;
    }
    Ok(())
}

fn push_numbers(
    alloc: Global,
    bytes: &mut Vec<u8>,
    range: &str,
    digits: &str,
) -> Result<bool, AllocError> {
    let Some((from, end)) = range_of(range) else {
        return Ok(false);
    };
    match hex::decode(alloc, digits) {
        Ok(run) => {
            push_between(bytes, from, end, &run)?;
            Ok(true)
        }
        Err(_) => Ok(false),
    }
}

/// The numbers of `FROM..END`; none, where it is no range.
pub fn range_of(text: &str) -> Option<(u32, u32)> {
    let (from, end) = text.split_once("..")?;
    match (from.parse::<u32>(), end.parse::<u32>()) {
        (Ok(from), Ok(end)) => Some((from, end)),
        _ => None,
    }
}

fn push_between(bytes: &mut Vec<u8>, from: u32, end: u32, run: &[u8]) -> Result<(), AllocError> {
    for number in from..end {
        bytes.extend_from_slice(&number.to_be_bytes())?;
        bytes.extend_from_slice(run)?;
    }
    Ok(())
}

/// Adds bytes in hexadecimal. Errors: out of memory.
pub fn push_hex(alloc: Global, out: &mut String, bytes: &[u8]) -> Result<(), AllocError> {
    let text = hex::encode(alloc, bytes)?;
    out.push_str(text.as_str())
}

/// Adds the SHA-256 of bytes, in hexadecimal. Errors: out of memory.
pub fn push_digest(alloc: Global, out: &mut String, bytes: &[u8]) -> Result<(), AllocError> {
    push_hex(alloc, out, &Plain.block(bytes))
}

/// Adds bytes in hexadecimal, where they are `most` at most, else how many they are and their SHA-256. Errors: out of
/// memory.
pub fn push_shown(
    alloc: Global,
    out: &mut String,
    bytes: &[u8],
    most: usize,
) -> Result<(), AllocError> {
    if bytes.is_empty() {
        return out.push_str("-");
    }
    if bytes.len() <= most {
        return push_hex(alloc, out, bytes);
    }
    write!(out, "{} bytes of ", bytes.len())?;
    push_digest(alloc, out, bytes)
}
