//! Bytes in answers.

use bt_rows::{RowError, push_shown};
use std::alloc::Global;

/// The most bytes that are printed one by one. The log of a fetch of three blocks has 230.
const MOST_SHOWN: usize = 256;

/// Answers by bytes in hexadecimal, where they are few, else by how many they are and their SHA-256.
pub fn tell_bytes(alloc: Global, out: &mut String, bytes: &[u8]) -> Result<(), RowError> {
    Ok(push_shown(alloc, out, bytes, MOST_SHOWN)?)
}
