//! Calls that are made once more where memory is refused, for runs of which one allocation is: each answers then as if
//! none had been.

use crate::bencode::push_doc;
use crate::bytes::push_shown;
use crate::names::Words;
use crate::stage::Objects;
use crate::torrent::take;
use bt_bencode::{BencodeError, Doc, parse};
use bt_hashreq::{HashKey, plan, to_claim};
use bt_meta::{Made, MakeError, MetaError, Torrent, make, read_torrent};
use bt_sparse::{ProofError, SparseTree};
use bt_tree::{Geometry, Hash32, Plain};
use std::alloc::{AllocError, Global};
use std::fmt::Write;

pub fn memory_row(
    alloc: Global,
    objects: &mut Objects,
    words: &mut Words,
    out: &mut String,
) -> Result<(), AllocError> {
    match words.word() {
        "torrent" => torrent_row(alloc, objects, words, out),
        "proof" => proof_row(alloc, words, out),
        _ => {
            words.are_wrong();
            Ok(())
        }
    }
}

/// The torrent of the files, with this name and piece length: its text, what is read from it, and the value that it spells. No
/// file is left then.
fn torrent_row(
    alloc: Global,
    objects: &mut Objects,
    words: &mut Words,
    out: &mut String,
) -> Result<(), AllocError> {
    let name = words.bytes(alloc)?;
    let piece_length = words.number();
    match made_again(alloc, &name, piece_length, &objects.files) {
        Ok(text) => push_readings(alloc, &mut objects.torrent, &text, out)?,
        Err(error) => write!(out, "{error}")?,
    }
    objects.files.clear();
    Ok(())
}

fn push_readings(
    alloc: Global,
    torrent: &mut Option<Torrent>,
    text: &[u8],
    out: &mut String,
) -> Result<(), AllocError> {
    push_shown(alloc, out, text)?;
    out.push_str(" is ")?;
    take(alloc, torrent, read_again(alloc, text), out)?;
    out.push_str(" and ")?;
    match parsed_again(alloc, text) {
        Ok(doc) => push_doc(alloc, doc.value(), text, out),
        Err(error) => write!(out, "{error}"),
    }
}

fn made_again(
    alloc: Global,
    name: &[u8],
    piece_length: u32,
    files: &[Made],
) -> Result<Vec<u8>, MakeError> {
    match make(alloc, name, piece_length, files) {
        Err(MakeError::OutOfMemory) => make(alloc, name, piece_length, files),
        made => made,
    }
}

fn read_again(alloc: Global, text: &[u8]) -> Result<Torrent, MetaError> {
    match read_torrent(alloc, text) {
        Err(MetaError::OutOfMemory) => read_torrent(alloc, text),
        read => read,
    }
}

fn parsed_again(alloc: Global, text: &[u8]) -> Result<Doc, BencodeError> {
    match parse(alloc, text) {
        Err(BencodeError::OutOfMemory) => parse(alloc, text),
        parsed => parsed,
    }
}

/// A tree of a file of this length and root: which digests are asked for a leaf, how many nodes it holds once these have come, and
/// what is asked for then.
fn proof_row(alloc: Global, words: &mut Words, out: &mut String) -> Result<(), AllocError> {
    let length = words.long();
    let root = words.array(alloc)?;
    let leaf = words.number();
    let digests = words.bytes(alloc)?;
    let Some(geometry) = Geometry::new(length) else {
        return out.push_str("no tree");
    };
    let mut tree = tree_again(alloc, geometry, root)?;
    let Some(key) = planned(&tree, leaf) else {
        return out.push_str("nothing is asked for");
    };
    push_key(out, &key)?;
    match proved_again(alloc, &mut tree, &key, &digests) {
        Ok(count) => write!(out, "{count} nodes, then {:?}", planned(&tree, leaf)),
        Err(error) => write!(out, "{error}"),
    }
}

/// What is asked for a leaf; None also where there is no such block.
fn planned(tree: &SparseTree<Plain>, leaf: u32) -> Option<HashKey> {
    if leaf >= tree.geometry().blocks() {
        return None;
    }
    plan(tree, leaf)
}

fn push_key(out: &mut String, key: &HashKey) -> Result<(), AllocError> {
    write!(
        out,
        "base {}, index {}, length {}, layers {}: ",
        key.base, key.index, key.length, key.layers
    )
}

fn tree_again(
    alloc: Global,
    geometry: Geometry,
    root: Hash32,
) -> Result<SparseTree<Plain>, AllocError> {
    match SparseTree::new(alloc, Plain, geometry, root) {
        Err(AllocError) => SparseTree::new(alloc, Plain, geometry, root),
        made => made,
    }
}

fn proved_again(
    alloc: Global,
    tree: &mut SparseTree<Plain>,
    key: &HashKey,
    digests: &[u8],
) -> Result<u32, ProofError> {
    let claim = match to_claim(alloc, key, digests) {
        Err(ProofError::OutOfMemory) => to_claim(alloc, key, digests)?,
        claim => claim?,
    };
    match tree.accept(&claim) {
        Err(ProofError::OutOfMemory) if tree.known(key.base, key.index).is_none() => {
            tree.accept(&claim)
        }
        accepted => accepted,
    }
}
