//! Bytes in answers.

use bt_rows::{push_digest, push_hex};
use std::alloc::{AllocError, Global};
use std::fmt::Write;

/// The most bytes of a conversation that are printed one by one.
const MOST_GIVEN: usize = 128;

/// Adds bytes that were given on: in hexadecimal, where they are few, else how many and their SHA-256.
pub fn tell_given(alloc: Global, out: &mut String, bytes: &[u8]) -> Result<(), AllocError> {
    if bytes.is_empty() {
        return out.push_str("-");
    }
    if bytes.len() <= MOST_GIVEN {
        return push_hex(alloc, out, bytes);
    }
    write!(out, "{}:", bytes.len())?;
    push_digest(alloc, out, bytes)
}
