//! Bytes in answers, and one answer or another.

use bt_rows::{RowError, push_shown, tell};
use std::alloc::Global;

/// The most bytes that are printed one by one.
const MOST_SHOWN: usize = 64;

/// Answers by bytes in hexadecimal, where they are few, else by how many they are and their SHA-256.
pub fn tell_bytes(alloc: Global, out: &mut String, bytes: &[u8]) -> Result<(), RowError> {
    Ok(push_shown(alloc, out, bytes, MOST_SHOWN)?)
}

/// Answers by one text or another.
pub fn tell_whether(out: &mut String, is: bool, text: &str, other: &str) -> Result<(), RowError> {
    tell(out, if is { text } else { other })
}
