//! Digests, one by one and by eights, of `Plain` and then of `Lanes`.

use crate::bytes::push_shown;
use crate::names::Words;
use bt_lanes::{Lanes, digest_many};
use bt_rows::push_hex;
use bt_tree::{Hash32, NodeHash, Plain, pad};
use std::alloc::{AllocError, Global};

pub fn digest_row(alloc: Global, words: &mut Words, out: &mut String) -> Result<(), AllocError> {
    match words.word() {
        "one" => one_row(alloc, words, out),
        "pair" => pair_row(alloc, words, out),
        "pad" => pad_row(alloc, words, out),
        "blocks" => blocks_row(alloc, words, out),
        "pairs" => pairs_row(alloc, words, out),
        "many" => many_row(alloc, words, out),
        _ => {
            words.are_wrong();
            Ok(())
        }
    }
}

/// What `Plain` gives, and then what `Lanes` gives.
fn push_both(
    alloc: Global,
    out: &mut String,
    plain: &Hash32,
    lanes: &Hash32,
) -> Result<(), AllocError> {
    push_hex(alloc, out, plain)?;
    out.push_str(" and ")?;
    push_hex(alloc, out, lanes)
}

/// The digest of bytes.
fn one_row(alloc: Global, words: &mut Words, out: &mut String) -> Result<(), AllocError> {
    let bytes = words.bytes(alloc)?;
    push_both(alloc, out, &Plain.block(&bytes), &Lanes.block(&bytes))
}

/// The digest of two digests.
fn pair_row(alloc: Global, words: &mut Words, out: &mut String) -> Result<(), AllocError> {
    let left = words.array(alloc)?;
    let right = words.array(alloc)?;
    push_both(
        alloc,
        out,
        &Plain.pair(&left, &right),
        &Lanes.pair(&left, &right),
    )
}

/// The digest of a node of padding.
fn pad_row(alloc: Global, words: &mut Words, out: &mut String) -> Result<(), AllocError> {
    let layer = words.number().min(255) as u8;
    push_both(alloc, out, &pad(Plain, layer), &pad(Lanes, layer))
}

/// The digests of eight blocks that lie one after the other.
fn blocks_row(alloc: Global, words: &mut Words, out: &mut String) -> Result<(), AllocError> {
    let run = words.bytes(alloc)?;
    if run.len() != 131072 {
        return out.push_str("no eight blocks");
    }
    push_eight(alloc, out, &Plain.blocks8(&run))?;
    out.push_str(" and ")?;
    push_eight(alloc, out, &Lanes.blocks8(&run))
}

fn push_eight(alloc: Global, out: &mut String, digests: &[Hash32]) -> Result<(), AllocError> {
    push_shown(alloc, out, digests.as_flattened())
}

/// The digests of eight pairs of digests, of 64 bytes each.
fn pairs_row(alloc: Global, words: &mut Words, out: &mut String) -> Result<(), AllocError> {
    let bytes = words.bytes(alloc)?;
    push_pairs(alloc, out, &bytes)
}

fn push_pairs(alloc: Global, out: &mut String, bytes: &[u8]) -> Result<(), AllocError> {
    if bytes.len() != 512 {
        return out.push_str("no eight pairs");
    }
    let mut pairs = [[0; 64]; 8];
    for j in 0..8usize {
        pairs[j].copy_from_slice(&bytes[64 * j..64 * (j + 1)]);
    }
    push_eight(alloc, out, &Plain.pairs8(&pairs))?;
    out.push_str(" and ")?;
    push_eight(alloc, out, &Lanes.pairs8(&pairs))
}

/// The digests of messages, a word each.
fn many_row(alloc: Global, words: &mut Words, out: &mut String) -> Result<(), AllocError> {
    let mut messages = Vec::new(alloc);
    for _ in 0..u64::MAX {
        if words.is_at_end() {
            break;
        }
        messages.push(words.bytes(alloc)?)?;
    }
    push_many(alloc, out, &messages)
}

fn push_many(alloc: Global, out: &mut String, messages: &[Vec<u8>]) -> Result<(), AllocError> {
    let lent = lent_of(alloc, messages)?;
    let mut digests = vec![in alloc; [0; 32]; messages.len()]?;
    fill(&lent, &mut digests);
    push_eight(alloc, out, &digests)
}

fn lent_of(alloc: Global, messages: &[Vec<u8>]) -> Result<Vec<&[u8]>, AllocError> {
    let mut lent = Vec::new(alloc);
    for message in messages {
        lent.push(message.as_slice())?;
    }
    Ok(lent)
}

/// Writes the digest of each message to its place.
fn fill(messages: &[&[u8]], digests: &mut [Hash32]) {
    if messages.len() == digests.len() {
        digest_many(messages, digests);
    }
}
