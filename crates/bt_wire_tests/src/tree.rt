//! Trees of which some nodes are known. They are called through functions without a contract, so that no
//! proof here carries a clause of theirs.

use crate::bytes::{Words, push_digests, push_shown};
use crate::key::{key_from, push_key};
use bt_hashreq::{HashKey, plan, to_claim};
use bt_rows::{push_hex, put};
use bt_sparse::{AnswerError, Claim, Digests, ProofError, SparseTree};
use bt_tree::{Geometry, Hash32, LayerError, NodeHash, Plain, Weak};
use std::alloc::{AllocError, Global};
use std::fmt::Write;

/// A tree over SHA-256, or over the digest of tests of which collisions are easily found.
#[derive(Drop)]
pub enum Tree {
    Empty,
    Plain(SparseTree<Plain>),
    Weak(SparseTree<Weak>),
}

/// A new tree, or a call of the one that is there.
pub fn tree_row(
    alloc: Global,
    tree: &mut Tree,
    words: &mut Words,
    out: &mut String,
) -> Result<(), AllocError> {
    match words.word() {
        "new" => plain_row(alloc, tree, words, out),
        "weak" => weak_row(alloc, tree, words, out),
        "layer" => layer_row(alloc, tree, words, out),
        name => any_tree_row(alloc, tree, name, words, out),
    }
}

fn plain_row(
    alloc: Global,
    tree: &mut Tree,
    words: &mut Words,
    out: &mut String,
) -> Result<(), AllocError> {
    if let Some(made) = root_tree(alloc, Plain, words)? {
        put(tree, Tree::Plain(made));
    }
    out.push_str("a tree")
}

fn weak_row(
    alloc: Global,
    tree: &mut Tree,
    words: &mut Words,
    out: &mut String,
) -> Result<(), AllocError> {
    if let Some(made) = root_tree(alloc, Weak, words)? {
        put(tree, Tree::Weak(made));
    }
    out.push_str("a tree")
}

/// A tree of which the root alone is known; none, where no file has as many bytes.
fn root_tree<H: NodeHash>(
    alloc: Global,
    hash: H,
    words: &mut Words,
) -> Result<Option<SparseTree<H>>, AllocError> {
    let geometry = Geometry::new(words.long());
    let root = words.array(alloc)?;
    match geometry {
        Some(geometry) => Ok(Some(SparseTree::new(alloc, hash, geometry, root)?)),
        None => {
            words.are_wrong();
            Ok(None)
        }
    }
}

/// A tree of which a layer is known, or why these bytes are none.
fn layer_row(
    alloc: Global,
    tree: &mut Tree,
    words: &mut Words,
    out: &mut String,
) -> Result<(), AllocError> {
    let Some(geometry) = Geometry::new(words.long()) else {
        words.are_wrong();
        return Ok(());
    };
    match layer_tree(alloc, geometry, words)? {
        Ok(made) => {
            put(tree, Tree::Plain(made));
            out.push_str("a tree")
        }
        Err(error) => write!(out, "{error}"),
    }
}

fn layer_tree(
    alloc: Global,
    geometry: Geometry,
    words: &mut Words,
) -> Result<Result<SparseTree<Plain>, LayerError>, AllocError> {
    let root = words.array(alloc)?;
    let layer = words.number().min(255) as u8;
    let bytes = words.bytes(alloc)?;
    Ok(SparseTree::with_layer(alloc, Plain, geometry, root, layer, &bytes))
}

fn any_tree_row(
    alloc: Global,
    tree: &mut Tree,
    name: &str,
    words: &mut Words,
    out: &mut String,
) -> Result<(), AllocError> {
    match tree {
        Tree::Empty => out.push_str("no tree"),
        Tree::Plain(tree) => call_row(alloc, tree, name, words, out),
        Tree::Weak(tree) => call_row(alloc, tree, name, words, out),
    }
}

fn call_row<H: NodeHash>(
    alloc: Global,
    tree: &mut SparseTree<H>,
    name: &str,
    words: &mut Words,
    out: &mut String,
) -> Result<(), AllocError> {
    match name {
        "accept" => accept_row(alloc, tree, words, out),
        "take" => take_row(alloc, tree, words, out),
        "known" => known_row(alloc, tree, words, out),
        "nodes" => nodes_row(alloc, tree, out),
        "unknown" => unknown_row(tree, words, out),
        "plan" => plan_row(alloc, tree, words, out),
        "answer" => answer_row(alloc, tree, words, out),
        "length" => length_row(tree, words, out),
        "room" => answer_room_row(alloc, tree, words, out),
        _ => {
            words.are_wrong();
            Ok(())
        }
    }
}

pub fn accept<H: NodeHash>(tree: &mut SparseTree<H>, claim: &Claim) -> Result<u32, ProofError> {
    tree.accept(claim)
}

pub fn known<H: NodeHash>(tree: &SparseTree<H>, layer: u32, index: u32) -> Option<Hash32> {
    tree.known(layer, index)
}

/// A claim by its base, its index, its run and its uncles.
pub fn claim_from(alloc: Global, words: &mut Words) -> Result<Claim, AllocError> {
    let base = words.number();
    let index = words.number();
    let run = Digests::new(words.digests(alloc)?);
    let uncles = Digests::new(words.digests(alloc)?);
    Ok(Claim {
        base,
        index,
        run,
        uncles,
    })
}

/// How many nodes are new, or why a claim is refused.
pub fn push_outcome(
    alloc: Global,
    out: &mut String,
    outcome: Result<u32, ProofError>,
) -> Result<(), AllocError> {
    match outcome {
        Ok(count) => write!(out, "{count} new"),
        Err(error) => push_refusal(alloc, out, &error),
    }
}

fn push_refusal(alloc: Global, out: &mut String, error: &ProofError) -> Result<(), AllocError> {
    write!(out, "{error}")?;
    match error {
        ProofError::Clash {
            layer,
            index,
            ours,
            theirs,
        } => {
            write!(out, " {layer} {index}")?;
            push_clash(alloc, out, ours, theirs)
        }
        _ => Ok(()),
    }
}

fn push_clash(
    alloc: Global,
    out: &mut String,
    ours: &[u8],
    theirs: &[u8],
) -> Result<(), AllocError> {
    out.push_str(" ")?;
    push_hex(alloc, out, ours)?;
    out.push_str(" ")?;
    push_hex(alloc, out, theirs)
}

fn accept_row<H: NodeHash>(
    alloc: Global,
    tree: &mut SparseTree<H>,
    words: &mut Words,
    out: &mut String,
) -> Result<(), AllocError> {
    let claim = claim_from(alloc, words)?;
    push_outcome(alloc, out, accept(tree, &claim))
}

/// What comes with a key is made a claim and taken.
fn take_row<H: NodeHash>(
    alloc: Global,
    tree: &mut SparseTree<H>,
    words: &mut Words,
    out: &mut String,
) -> Result<(), AllocError> {
    let key = key_from(alloc, words)?;
    let digests = words.bytes(alloc)?;
    push_outcome(alloc, out, taken(alloc, tree, &key, &digests))
}

fn taken<H: NodeHash>(
    alloc: Global,
    tree: &mut SparseTree<H>,
    key: &HashKey,
    digests: &[u8],
) -> Result<u32, ProofError> {
    let claim = to_claim(alloc, key, digests)?;
    accept(tree, &claim)
}

fn known_row<H: NodeHash>(
    alloc: Global,
    tree: &SparseTree<H>,
    words: &mut Words,
    out: &mut String,
) -> Result<(), AllocError> {
    let layer = words.number();
    let index = words.number();
    match known(tree, layer, index) {
        Some(digest) => push_hex(alloc, out, &digest),
        None => out.push_str("not known"),
    }
}

/// How many nodes of the tree are known, and which: layer by layer from the leaves, a 1 and the digest of
/// each, and a 0 for each that is not known.
fn nodes_row<H: NodeHash>(
    alloc: Global,
    tree: &SparseTree<H>,
    out: &mut String,
) -> Result<(), AllocError> {
    let mut bytes = Vec::new(alloc);
    let count = append_layers(tree, &mut bytes)?;
    write!(out, "{count} known, ")?;
    push_shown(alloc, out, &bytes)
}

fn append_layers<H: NodeHash>(
    tree: &SparseTree<H>,
    bytes: &mut Vec<u8>,
) -> Result<u32, AllocError> {
    let mut count = 0u32;
    let height = tree.geometry().height() as u32;
    for layer in 0..=height {
        let width = 1u32.wrapping_shl(height.wrapping_sub(layer));
        count = count.wrapping_add(append_layer(tree, layer, width, bytes)?);
    }
    Ok(count)
}

fn append_layer<H: NodeHash>(
    tree: &SparseTree<H>,
    layer: u32,
    width: u32,
    bytes: &mut Vec<u8>,
) -> Result<u32, AllocError> {
    let mut count = 0u32;
    for index in 0..width {
        count = count.wrapping_add(append_node(bytes, known(tree, layer, index))?);
    }
    Ok(count)
}

/// Adds a node, and returns how many are known: 1 or 0.
fn append_node(bytes: &mut Vec<u8>, node: Option<Hash32>) -> Result<u32, AllocError> {
    match node {
        Some(digest) => {
            bytes.extend_from_slice(&[1])?;
            bytes.extend_from_slice(&digest)?;
            Ok(1)
        }
        None => {
            bytes.extend_from_slice(&[0])?;
            Ok(0)
        }
    }
}

/// The next leaf that is not known.
fn unknown_row<H: NodeHash>(
    tree: &SparseTree<H>,
    words: &mut Words,
    out: &mut String,
) -> Result<(), AllocError> {
    match tree.next_unknown(words.number()) {
        Some(leaf) => write!(out, "{leaf}"),
        None => out.push_str("none"),
    }
}

/// The key that asks for a leaf.
fn plan_row<H: NodeHash>(
    alloc: Global,
    tree: &SparseTree<H>,
    words: &mut Words,
    out: &mut String,
) -> Result<(), AllocError> {
    let leaf = words.number();
    if leaf >= tree.geometry().blocks() {
        return out.push_str("no such block");
    }
    match plan(tree, leaf) {
        Some(key) => push_key(alloc, out, &key),
        None => out.push_str("none"),
    }
}

/// What a peer asks of a tree.
#[derive(Clone, Copy)]
struct Request {
    base: u32,
    index: u32,
    length: u32,
    layers: u32,
}

fn request_from(words: &mut Words) -> Request {
    let base = words.number();
    let index = words.number();
    let length = words.number();
    let layers = words.number();
    Request {
        base,
        index,
        length,
        layers,
    }
}

fn answer<H: NodeHash>(tree: &SparseTree<H>, request: Request) -> Result<Vec<Hash32>, AnswerError> {
    tree.answer(request.base, request.index, request.length, request.layers)
}

fn answer_row<H: NodeHash>(
    alloc: Global,
    tree: &SparseTree<H>,
    words: &mut Words,
    out: &mut String,
) -> Result<(), AllocError> {
    let request = request_from(words);
    match answer(tree, request) {
        Ok(digests) => push_digests(alloc, out, &digests),
        Err(error) => write!(out, "{error}"),
    }
}

fn answer_len<H: NodeHash>(tree: &SparseTree<H>, request: Request) -> Option<u32> {
    tree.answer_len(request.base, request.index, request.length, request.layers)
}

/// How many digests answer a request.
fn length_row<H: NodeHash>(
    tree: &SparseTree<H>,
    words: &mut Words,
    out: &mut String,
) -> Result<(), AllocError> {
    let request = request_from(words);
    match answer_len(tree, request) {
        Some(count) => write!(out, "{count} digests"),
        None => out.push_str("no answer"),
    }
}

/// An answer that is written over three digests of 32 nines each, where it is no longer or shorter, and what
/// stands there then.
fn answer_room_row<H: NodeHash>(
    alloc: Global,
    tree: &SparseTree<H>,
    words: &mut Words,
    out: &mut String,
) -> Result<(), AllocError> {
    let request = request_from(words);
    let mut room = [[9; 32]; 3];
    push_answered(out, answer_into(tree, request, &mut room))?;
    push_digests(alloc, out, &room)
}

fn push_answered(
    out: &mut String,
    outcome: Option<Result<(), AnswerError>>,
) -> Result<(), AllocError> {
    match outcome {
        None => out.push_str("another length "),
        Some(Ok(())) => out.push_str("written "),
        Some(Err(error)) => write!(out, "{error} "),
    }
}

/// The answer over these digests, where they are as many as it says; None where they are not.
fn answer_into<H: NodeHash>(
    tree: &SparseTree<H>,
    request: Request,
    digests: &mut [Hash32],
) -> Option<Result<(), AnswerError>> {
    let Request {
        base,
        index,
        length,
        layers,
    } = request;
    if let Some(size) = tree.answer_len(base, index, length, layers) {
        if size as usize != digests.len() {
            return None;
        }
    }
    Some(tree.answer_into(base, index, length, layers, digests))
}
