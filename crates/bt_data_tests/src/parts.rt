//! The bytes that a word spells.

use crate::names::Names;
use bt_rows::{Spelling, push_run, range_of};
use std::alloc::{AllocError, Global};

impl Spelling for Names {
    /// Words are parts that are joined by `+`.
    fn spelled(&self, alloc: Global, word: &str) -> Result<Option<Vec<u8>>, AllocError> {
        let mut bytes = Vec::new(alloc);
        if word == "-" || push_parts(alloc, self, &mut bytes, word)? {
            return Ok(Some(bytes));
        }
        Ok(None)
    }
}

/// Adds the bytes of all parts. False where one of them is none.
fn push_parts(
    alloc: Global,
    names: &Names,
    bytes: &mut Vec<u8>,
    word: &str,
) -> Result<bool, AllocError> {
    for part in word.split('+') {
        if !push_part(alloc, names, bytes, part)? {
            return Ok(false);
        }
    }
    Ok(!word.is_empty())
}

/// Adds the bytes of a part, as often as it says.
fn push_part(
    alloc: Global,
    names: &Names,
    bytes: &mut Vec<u8>,
    part: &str,
) -> Result<bool, AllocError> {
    match part.split_once('*') {
        Some((count, one)) => push_often(alloc, names, bytes, count, one),
        None => push_one(names, bytes, part),
    }
}

fn push_often(
    alloc: Global,
    names: &Names,
    bytes: &mut Vec<u8>,
    count: &str,
    one: &str,
) -> Result<bool, AllocError> {
    let mut run = Vec::new(alloc);
    let is_part = push_one(names, &mut run, one)?;
    match count.parse::<u32>() {
        Ok(count) => push_run(bytes, &run, count)?,
        Err(_) => return Ok(false),
    }
    Ok(is_part)
}

/// Adds the bytes of what its first letter says: bytes in base 16, a name, part of a file, or numbers; else
/// of the text itself.
fn push_one(names: &Names, bytes: &mut Vec<u8>, part: &str) -> Result<bool, AllocError> {
    if let Some(digits) = part.strip_prefix('%') {
        return push_digits(bytes, digits.as_bytes());
    }
    if let Some(name) = part.strip_prefix('@') {
        return push_named(names, bytes, name);
    }
    if let Some(range) = part.strip_prefix('~') {
        return push_content(bytes, range);
    }
    if let Some(numbers) = part.strip_prefix('#') {
        return push_numbers(bytes, numbers);
    }
    push_text(bytes, part)?;
    Ok(true)
}

/// A text, with a space for each `_`.
fn push_text(bytes: &mut Vec<u8>, text: &str) -> Result<(), AllocError> {
    for byte in text.as_bytes() {
        bytes.push(if *byte == b'_' { b' ' } else { *byte })?;
    }
    Ok(())
}

fn push_digits(bytes: &mut Vec<u8>, digits: &[u8]) -> Result<bool, AllocError> {
    let (pairs, rest) = digits.as_chunks::<2>();
    for pair in pairs {
        bytes.push(nibble(pair[0]).wrapping_mul(16) | nibble(pair[1]))?;
    }
    Ok(rest.is_empty())
}

/// The number that a digit is; 0 where it is none.
fn nibble(digit: u8) -> u8 {
    (digit as char).to_digit(16).unwrap_or(0) as u8
}

fn push_named(names: &Names, bytes: &mut Vec<u8>, name: &str) -> Result<bool, AllocError> {
    match names.bytes_of(name) {
        Some(named) => {
            bytes.extend_from_slice(named)?;
            Ok(true)
        }
        None => Ok(false),
    }
}

/// `FROM..END`: these bytes of the file whose byte i is (7 i + i / 16384) mod 256.
fn push_content(bytes: &mut Vec<u8>, range: &str) -> Result<bool, AllocError> {
    match range_of(range) {
        Some((from, end)) => {
            push_bytes_between(bytes, from, end)?;
            Ok(true)
        }
        None => Ok(false),
    }
}

pub fn push_bytes_between(bytes: &mut Vec<u8>, from: u32, end: u32) -> Result<(), AllocError> {
    for i in from as u64..end as u64 {
        bytes.push(((7 * i + i / 16384) % 256) as u8)?;
    }
    Ok(())
}

/// `FROM..END#BEFORE#BEHIND`: each number from FROM up to END in five digits, between these texts.
fn push_numbers(bytes: &mut Vec<u8>, words: &str) -> Result<bool, AllocError> {
    let (range, texts) = words.split_once('#').unwrap_or((words, ""));
    let (before, behind) = texts.split_once('#').unwrap_or((texts, ""));
    match range_of(range) {
        Some((from, end)) => {
            for number in from..end {
                push_number(bytes, before, number, behind)?;
            }
            Ok(true)
        }
        None => Ok(false),
    }
}

fn push_number(
    bytes: &mut Vec<u8>,
    before: &str,
    number: u32,
    behind: &str,
) -> Result<(), AllocError> {
    push_text(bytes, before)?;
    for power in [10000u32, 1000, 100, 10, 1] {
        bytes.push(b'0' + (number / power % 10) as u8)?;
    }
    push_text(bytes, behind)
}
