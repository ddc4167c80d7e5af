//! Hints as words.

use crate::bytes::tell_bytes;
use bt_hashreq::HashKey;
use bt_resume::{Hint, Hints, LentHint};
use bt_rows::{RowError, Words, tell};
use bt_sparse::Digests;
use bt_tree::Hash32;
use std::alloc::Global;
use std::fmt::Write;

/// The key of the next words: root, base, index, length and layers.
fn key_from(alloc: Global, words: &mut Words) -> Result<HashKey, RowError> {
    let root = words.digest(alloc)?;
    numbered_key(root, words)
}

fn numbered_key(root: Hash32, words: &mut Words) -> Result<HashKey, RowError> {
    let base = words.number()?;
    let index = words.number()?;
    let length = words.number()?;
    let layers = words.number()?;
    Ok(HashKey {
        root,
        base,
        index,
        length,
        layers,
    })
}

/// The marks of the next words: their file, the first block, and how many.
pub fn run_from(words: &mut Words) -> Result<Hint, RowError> {
    let file = words.number()?;
    let first = words.number()?;
    let count = words.number()?;
    Ok(Hint::Marks { file, first, count })
}

/// The proof of the next words: its key and its digests.
pub fn proof_from(alloc: Global, words: &mut Words) -> Result<Hint, RowError> {
    let key = key_from(alloc, words)?;
    let digests = words.digests(alloc)?;
    Ok(Hint::Proof(key, Digests::new(digests)))
}

/// Tells how many hints there are.
pub fn tell_count(out: &mut String, hints: &Hints) -> Result<(), RowError> {
    if hints.is_empty() {
        return tell(out, "no hint");
    }
    let count = hints.len();
    Ok(write!(out, "hints {count}")?)
}

/// Tells how many hints there are, and then each.
pub fn tell_hints(alloc: Global, out: &mut String, hints: &Hints) -> Result<(), RowError> {
    tell_count(out, hints)?;
    for hint in hints.iter() {
        tell_hint(alloc, out, hint)?;
    }
    Ok(())
}

fn tell_hint(alloc: Global, out: &mut String, hint: LentHint<'_>) -> Result<(), RowError> {
    match hint {
        LentHint::Proof(key, digests) => tell_proof(alloc, out, &key, digests),
        LentHint::Marks { file, first, count } => {
            Ok(write!(out, ", marks {file} {first} {count}")?)
        }
    }
}

fn tell_proof(
    alloc: Global,
    out: &mut String,
    key: &HashKey,
    digests: &[Hash32],
) -> Result<(), RowError> {
    tell(out, ", proof ")?;
    tell_bytes(alloc, out, &key.root)?;
    tell_numbers(out, key)?;
    tell_bytes(alloc, out, digests.as_flattened())
}

fn tell_numbers(out: &mut String, key: &HashKey) -> Result<(), RowError> {
    let HashKey {
        root: _,
        base,
        index,
        length,
        layers,
    } = key;
    Ok(write!(out, " {base} {index} {length} {layers} ")?)
}
