//! Bytes in answers.

use std::alloc::{AllocError, Global};
use std::fmt::Write;

/// The most bytes that are printed one by one.
const MOST_SHOWN: usize = 128;

/// Adds bytes in base 16, where they are few, else how many they are and their SHA-256.
pub fn push_shown(alloc: Global, out: &mut String, bytes: &[u8]) -> Result<(), AllocError> {
    bt_rows::push_shown(alloc, out, bytes, MOST_SHOWN)
}

/// Adds bytes as text, with `%` and two digits in base 16 for each that is no printed letter of ASCII.
pub fn push_text(out: &mut String, bytes: &[u8]) -> Result<(), AllocError> {
    for byte in bytes {
        if byte.is_ascii_graphic() {
            out.push(*byte as char)?;
        } else {
            write!(out, "%{byte:02x}")?;
        }
    }
    Ok(())
}
