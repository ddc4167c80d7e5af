//! A tree with an ordered map in place of pages, and with a reading of its own of what a claim names: all
//! nodes of its run's layers and of its path. It looks at the padding of every one of them.
ghost use Rattle.std.specs.Prelude.{◌≡◌, None, IsTrue, IfOk, OnErr, OnOk, ◌↔◌};
ghost use Rattle.std.specs.FinMap as finite;
ghost use Rattle.bt_sparse.specs.NodeMap.{digest_at};

use bt_sparse::{Claim, ProofError};
use bt_tree::{Geometry, Hash32, NodeHash, Plain, pad};
use std::alloc::{AllocError, Global};
use std::collections::BTreeMap;
use std::marker::Model;

/// Digests at nodes, which are named by layer and index.
#[derive(Drop)]
pub struct OrderedNodes {
    digests: BTreeMap<(u32, u32), Hash32>,
}

impl Model for OrderedNodes {
    ghost use Rattle.std.specs.FinMap as finite;
    ghost use Rattle.bt_sparse.specs.NodeMap.{Nodes, nodes_code};

    ghost Value = { Nodes };

    ghost coded = { nodes_code };

    ghost view = { λ a. finite.from_entries a.digests.entries };
}

impl OrderedNodes {
    fn new(alloc: Global) -> OrderedNodes
        ensures { result ≡ finite.empty }
    {
        OrderedNodes {
            digests: BTreeMap::new(alloc),
        }
    }

    /// The digest at a node.
    fn get(&self, layer: u32, index: u32) -> Option<Hash32>
        ensures { result ≡ digest_at self.now layer index }
    {
        self.digests.get(&(layer, index)).copied()
    }

    /// Puts a digest at a node, and returns whether there was none.
    fn insert(&mut self, layer: u32, index: u32, digest: Hash32) -> Result<bool, AllocError>
        ensures is_new { IfOk result (λ is_new. IsTrue is_new ↔ (digest_at self.old layer index
            ≡ None)) }
        ensures value { OnOk result (self.new ≡ finite.insert self.old (layer, index) digest) }
        ensures err { OnErr result (self.new ≡ self.old) }
    {
        let before = self.digests.insert((layer, index), digest)?;
        Ok(before.is_none())
    }
}

/// A tree with such a body.
#[derive(Drop)]
pub struct MapTree {
    alloc: Global,
    geometry: Geometry,
    nodes: OrderedNodes,
}

pub fn new_map_tree(
    alloc: Global,
    geometry: Geometry,
    root: &Hash32,
) -> Result<MapTree, AllocError> {
    let mut nodes = OrderedNodes::new(alloc);
    nodes.insert(geometry.height() as u32, 0, *root)?;
    Ok(MapTree {
        alloc,
        geometry,
        nodes,
    })
}

/// How many nodes of a layer cover a block.
fn real(geometry: Geometry, layer: u32) -> u32 {
    if layer > geometry.height() as u32 {
        return 0;
    }
    geometry.real(layer as u8)
}

pub fn map_known(tree: &MapTree, layer: u32, index: u32) -> Option<Hash32> {
    let height = tree.geometry.height() as u32;
    if layer > height || index >= 1u32.wrapping_shl(height.wrapping_sub(layer)) {
        return None;
    }
    if index < real(tree.geometry, layer) {
        return tree.nodes.get(layer, index);
    }
    Some(pad(Plain, layer as u8))
}

/// Whether a claimed node that covers no block has another digest than the padding.
fn is_unpadded(tree: &MapTree, layer: u32, index: u32, digest: &Hash32) -> bool {
    index >= real(tree.geometry, layer) && map_known(tree, layer, index) != Some(*digest)
}

/// Puts a claimed node where it covers a block, and returns how many nodes are new: 1 or 0.
fn put(tree: &mut MapTree, layer: u32, index: u32, digest: &Hash32) -> Result<u32, AllocError> {
    if index >= real(tree.geometry, layer) {
        return Ok(0);
    }
    let is_new = tree.nodes.insert(layer, index, *digest)?;
    Ok(u32::from(is_new))
}

fn put_all(tree: &mut MapTree, pairs: &[ClaimedPair]) -> Result<u32, AllocError> {
    let mut count: u32 = 0;
    for pair in pairs {
        let left = pair.index.wrapping_mul(2);
        count = count.wrapping_add(put(tree, pair.layer, left, &pair.left)?);
        count = count.wrapping_add(put(tree, pair.layer, left.wrapping_add(1), &pair.right)?);
    }
    Ok(count)
}

/// Two siblings that a claim names, below node `index` of the next layer.
#[derive(Clone, Copy)]
struct ClaimedPair {
    layer: u32,
    index: u32,
    left: Hash32,
    right: Hash32,
}

/// A node of a claim's path.
#[derive(Clone, Copy)]
struct PathNode {
    layer: u32,
    index: u32,
    digest: Hash32,
}

/// How many nodes a claim's run has, and how many uncles it has.
fn counts(claim: &Claim) -> (u64, u64) {
    let run = claim.run.as_slice().len();
    (run as u64, claim.uncles.as_slice().len() as u64)
}

/// Whether a claim is of a power of two of nodes, two at least, that begins at a multiple of it, and lies in
/// a tree of this height, run and path.
fn has_shape(height: u32, claim: &Claim) -> bool {
    let (run, uncles) = counts(claim);
    if claim.base > height || run < 2 || !run.is_power_of_two() {
        return false;
    }
    let index = claim.index as u64;
    let width = 1u64.wrapping_shl(height.wrapping_sub(claim.base));
    let run_top = claim.base.wrapping_add(run.trailing_zeros()) as u64;
    index % run == 0
        && index.saturating_add(run) <= width
        && run_top.saturating_add(uncles) <= height as u64
}

/// A digest of a list, and zeros past its end.
fn at(digests: &[Hash32], index: usize) -> Hash32 {
    digests.get(index).copied().unwrap_or([0; 32])
}

/// The node that two siblings hang from.
fn node_above(pair: &ClaimedPair) -> PathNode {
    PathNode {
        layer: pair.layer.wrapping_add(1),
        index: pair.index,
        digest: Plain.pair(&pair.left, &pair.right),
    }
}

/// The node above the pair of this number; one of zeros past the end.
fn node_at(pairs: &[ClaimedPair], index: usize) -> PathNode {
    match pairs.get(index) {
        Some(pair) => node_above(pair),
        None => PathNode {
            layer: 0,
            index: 0,
            digest: [0; 32],
        },
    }
}

/// The siblings that two nodes next to each other are.
fn pair_of(left: &PathNode, right: &PathNode) -> ClaimedPair {
    ClaimedPair {
        layer: left.layer,
        index: left.index / 2,
        left: left.digest,
        right: right.digest,
    }
}

/// Adds the pairs that a claim's run makes.
fn add_run(claim: &Claim, pairs: &mut Vec<ClaimedPair>) -> Result<(), AllocError> {
    let run = claim.run.as_slice();
    let mut index = claim.index / 2;
    for i in 0..run.len() / 2 {
        let left = i.wrapping_mul(2);
        pairs.push(ClaimedPair {
            layer: claim.base,
            index,
            left: at(run, left),
            right: at(run, left.wrapping_add(1)),
        })?;
        index = index.wrapping_add(1);
    }
    Ok(())
}

/// Adds the pairs of the layers above a run: the nodes above each two pairs are the next one.
fn add_layers(pairs: &mut Vec<ClaimedPair>) -> Result<(), AllocError> {
    for i in 1..pairs.len() {
        let right = i.wrapping_mul(2).wrapping_sub(1);
        let left = node_at(pairs.as_slice(), right.wrapping_sub(1));
        let pair = pair_of(&left, &node_at(pairs.as_slice(), right));
        pairs.push(pair)?;
    }
    Ok(())
}

/// Adds the pairs of the path from the run's top up, and returns the path's end.
fn add_path(
    claim: &Claim,
    from: PathNode,
    pairs: &mut Vec<ClaimedPair>,
) -> Result<PathNode, AllocError> {
    let mut node = from;
    for uncle in claim.uncles.as_slice() {
        let pair = path_pair(node, *uncle);
        node = node_above(&pair);
        pairs.push(pair)?;
    }
    Ok(node)
}

/// The pair of a node of a path and its uncle.
fn path_pair(node: PathNode, uncle: Hash32) -> ClaimedPair {
    let is_left = node.index % 2 == 0;
    ClaimedPair {
        layer: node.layer,
        index: node.index / 2,
        left: if is_left { node.digest } else { uncle },
        right: if is_left { uncle } else { node.digest },
    }
}

/// What speaks against these pairs: a node without a block that has another digest than the padding.
fn has_unpadded(tree: &MapTree, pairs: &[ClaimedPair]) -> bool {
    for pair in pairs {
        let left = pair.index.wrapping_mul(2);
        if is_unpadded(tree, pair.layer, left, &pair.left)
            || is_unpadded(tree, pair.layer, left.wrapping_add(1), &pair.right)
        {
            return true;
        }
    }
    false
}

/// Why a claim of these pairs and this top is refused.
fn refusal(tree: &MapTree, pairs: &[ClaimedPair], top: PathNode) -> Option<ProofError> {
    if has_unpadded(tree, pairs) {
        return Some(ProofError::Padding);
    }
    match tree.nodes.get(top.layer, top.index) {
        None => Some(ProofError::NoAnchor),
        Some(digest) if digest != top.digest => Some(ProofError::TopDiffers),
        Some(_) => None,
    }
}

/// The nodes that a claim names, in pairs, and its top.
fn name_nodes(claim: &Claim, pairs: &mut Vec<ClaimedPair>) -> Result<PathNode, AllocError> {
    add_run(claim, pairs)?;
    add_layers(pairs)?;
    let top = node_at(pairs.as_slice(), pairs.len().wrapping_sub(1));
    add_path(claim, top, pairs)
}

/// What `accept` returns where no held node has another digest than the claim says: there is no P6 here.
pub fn map_accept(
    tree: &mut MapTree,
    claim: &Claim,
) -> Result<Result<u32, ProofError>, AllocError> {
    if !has_shape(tree.geometry.height() as u32, claim) {
        return Ok(Err(ProofError::Shape));
    }
    let mut pairs = Vec::new(tree.alloc);
    let top = name_nodes(claim, &mut pairs)?;
    if let Some(error) = refusal(tree, pairs.as_slice(), top) {
        return Ok(Err(error));
    }
    Ok(Ok(put_all(tree, pairs.as_slice())?))
}
