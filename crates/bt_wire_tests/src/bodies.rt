//! The pages and the ordered map run the same claims, and are to answer alike.

use crate::bytes::Words;
use crate::map_body::{MapTree, map_accept, map_known, new_map_tree};
use crate::tree::{accept, claim_from, known, push_outcome};
use bt_rows::put;
use bt_sparse::{Claim, SparseTree};
use bt_tree::{Geometry, Hash32, Plain};
use std::alloc::{AllocError, Global};

/// A tree with each body.
#[derive(Drop)]
pub struct Bodies {
    pages: SparseTree<Plain>,
    map: MapTree,
}

/// New trees of which the root alone is known, or a claim that both are given.
pub fn bodies_row(
    alloc: Global,
    bodies: &mut Option<Bodies>,
    words: &mut Words,
    out: &mut String,
) -> Result<(), AllocError> {
    match words.word() {
        "new" => new_row(alloc, bodies, words, out),
        "accept" => accept_row(alloc, bodies, words, out),
        _ => {
            words.are_wrong();
            Ok(())
        }
    }
}

fn new_row(
    alloc: Global,
    bodies: &mut Option<Bodies>,
    words: &mut Words,
    out: &mut String,
) -> Result<(), AllocError> {
    let geometry = Geometry::new(words.long());
    let root = words.array(alloc)?;
    match geometry {
        Some(geometry) => put(bodies, Some(new_bodies(alloc, geometry, &root)?)),
        None => words.are_wrong(),
    }
    out.push_str("two trees")
}

fn new_bodies(alloc: Global, geometry: Geometry, root: &Hash32) -> Result<Bodies, AllocError> {
    let pages = SparseTree::new(alloc, Plain, geometry, *root)?;
    let map = new_map_tree(alloc, geometry, root)?;
    Ok(Bodies { pages, map })
}

/// What the pages answer, and whether the map answers the same, and then knows the same of each node.
fn accept_row(
    alloc: Global,
    bodies: &mut Option<Bodies>,
    words: &mut Words,
    out: &mut String,
) -> Result<(), AllocError> {
    let claim = claim_from(alloc, words)?;
    push_any(alloc, bodies, &claim, out)
}

fn push_any(
    alloc: Global,
    bodies: &mut Option<Bodies>,
    claim: &Claim,
    out: &mut String,
) -> Result<(), AllocError> {
    match bodies {
        Some(bodies) => push_both(alloc, bodies, claim, out),
        None => out.push_str("no trees"),
    }
}

fn push_both(
    alloc: Global,
    bodies: &mut Bodies,
    claim: &Claim,
    out: &mut String,
) -> Result<(), AllocError> {
    let ours = accept(&mut bodies.pages, claim);
    let is_same = map_accept(&mut bodies.map, claim)? == ours;
    push_outcome(alloc, out, ours)?;
    out.push_str(comparison(bodies, is_same))
}

fn comparison(bodies: &Bodies, is_same: bool) -> &'static str {
    if !is_same {
        ", and the map another"
    } else if know_alike(bodies) {
        ", and the map alike"
    } else {
        ", and the map knows another node"
    }
}

/// Whether the trees know the same of each node of a tree of height 7, and of some outside.
fn know_alike(bodies: &Bodies) -> bool {
    for layer in 0..9u32 {
        for index in 0..130u32 {
            if known(&bodies.pages, layer, index) != map_known(&bodies.map, layer, index) {
                return false;
            }
        }
    }
    true
}
