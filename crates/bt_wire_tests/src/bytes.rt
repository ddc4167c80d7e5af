//! The words of a row, and bytes and numbers in answers.

use bt_rows::{Hexadecimal, NotedWords};
use bt_tree::Hash32;
use std::alloc::{AllocError, Global};
use std::fmt::Write;

/// The words of a row.
pub type Words<'a> = NotedWords<'a, Hexadecimal>;

/// The most bytes that are printed one by one.
const MOST_SHOWN: usize = 128;

/// Adds bytes in hexadecimal, where they are few, else how many they are and their SHA-256.
pub fn push_shown(alloc: Global, out: &mut String, bytes: &[u8]) -> Result<(), AllocError> {
    bt_rows::push_shown(alloc, out, bytes, MOST_SHOWN)
}

/// Adds digests as the bytes that they are, one after the other.
pub fn push_digests(alloc: Global, out: &mut String, digests: &[Hash32]) -> Result<(), AllocError> {
    push_shown(alloc, out, digests.as_flattened())
}

/// Adds numbers, with a space before each.
pub fn push_each(out: &mut String, numbers: &[u32]) -> Result<(), AllocError> {
    for number in numbers {
        write!(out, " {number}")?;
    }
    Ok(())
}

pub fn push_yes_or_no(out: &mut String, is: bool) -> Result<(), AllocError> {
    out.push_str(if is { "yes" } else { "no" })
}
