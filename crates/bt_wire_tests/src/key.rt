//! Keys of hash messages, and what is claimed with them.

use crate::bytes::{Words, push_digests, push_each, push_shown};
use bt_hashreq::{HashKey, read_key, to_claim, write_key};
use bt_rows::push_hex;
use bt_sparse::Claim;
use std::alloc::{AllocError, Global};
use std::fmt::Write;

/// A call that is about keys.
pub fn key_row(alloc: Global, words: &mut Words, out: &mut String) -> Result<(), AllocError> {
    match words.word() {
        "read" => read_row(alloc, words, out),
        "write" => write_row(alloc, words, out),
        "claim" => claim_row(alloc, words, out),
        _ => {
            words.are_wrong();
            Ok(())
        }
    }
}

/// A key, by its numbers.
pub fn key_from(alloc: Global, words: &mut Words) -> Result<HashKey, AllocError> {
    let root = words.array(alloc)?;
    let base = words.number();
    let index = words.number();
    let length = words.number();
    let layers = words.number();
    Ok(HashKey {
        root,
        base,
        index,
        length,
        layers,
    })
}

/// Adds the numbers of a key.
pub fn push_key(alloc: Global, out: &mut String, key: &HashKey) -> Result<(), AllocError> {
    push_hex(alloc, out, &key.root)?;
    push_each(out, &[key.base, key.index, key.length, key.layers])
}

fn read_row(alloc: Global, words: &mut Words, out: &mut String) -> Result<(), AllocError> {
    let bytes = words.bytes(alloc)?;
    match read_key(&bytes) {
        Some(key) => push_key(alloc, out, &key),
        None => out.push_str("no key"),
    }
}

fn write_row(alloc: Global, words: &mut Words, out: &mut String) -> Result<(), AllocError> {
    let key = key_from(alloc, words)?;
    push_shown(alloc, out, &write_key(&key))
}

fn claim_row(alloc: Global, words: &mut Words, out: &mut String) -> Result<(), AllocError> {
    let key = key_from(alloc, words)?;
    let digests = words.bytes(alloc)?;
    match to_claim(alloc, &key, &digests) {
        Ok(claim) => push_claim(alloc, out, &claim),
        Err(error) => write!(out, "{error}"),
    }
}

fn push_claim(alloc: Global, out: &mut String, claim: &Claim) -> Result<(), AllocError> {
    write!(out, "claim {} {} ", claim.base, claim.index)?;
    push_digests(alloc, out, claim.run.as_slice())?;
    out.push_str(" with ")?;
    push_digests(alloc, out, claim.uncles.as_slice())
}
