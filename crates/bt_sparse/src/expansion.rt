//! The nodes that a claim names, in pairs of siblings, with the digests that follow from its run and its
//! uncles; and whether its shape fits the tree.
ghost use Rattle.std.specs.Prelude.{◌≡◌, ℕ, List, [], ◌*◌, ◌/◌, ◌+◌, ◌%◌, ◌++◌, ◌<◌, ◌≤◌, ◌==◌, ◌↔◌, if◌then◌else◌, IsTrue, IfOk, OnOk, length};
ghost use Rattle.bt_tree.specs.Limits.{max_block_count, max_height};
ghost use Rattle.bt_tree.specs.Blocks.{block_count};
ghost use Rattle.bt_tree.specs.TreeShape.{height_of};
ghost use Rattle.bt_tree.specs.Tree.{padding_digest};
ghost use Rattle.bt_tree.specs.Peaks.{row_node};
ghost use Rattle.bt_sparse.specs.Claim.{run_digest, run_height, run_node, path_digest, top_layer, top_node, sibling_of, HasShape};
ghost use Rattle.bt_sparse.specs.ExpansionSteps.{layer_pairs, covered_count, run_pairs, path_pairs, AreRunNodes, AreParents, IsCompleted, IsShort, IsExpansion};
ghost use Rattle.bt_sparse.specs.PaddingSteps.{HasPaddedRun};

use crate::claim::Claim;
use crate::padding::Padding;
use bt_tree::{Geometry, Hash32, NodeHash, eight_parents, tree_height};
use std::alloc::{AllocError, Global};

/// Two siblings that a claim names, in layer `layer`, below node `index` of the next one.
#[derive(Clone, Copy)]
pub(crate) struct ClaimedPair {
    pub(crate) layer: u32,
    pub(crate) index: u32,
    pub(crate) left: Hash32,
    pub(crate) right: Hash32,
}

/// The nodes that a claim names, in pairs, but for pairs of its run's layers that cover no block; and the
/// digest of the top, which the others hang from.
#[derive(Drop)]
pub(crate) struct Expansion {
    pub(crate) pairs: Vec<ClaimedPair>,
    pub(crate) top_digest: Hash32,
}

/// Whether a claim has the shape of one in a tree of this height.
pub(crate) fn has_shape(height: u8, claim: &Claim) -> bool
    requires { height ≤ max_height }
    ensures { IsTrue result ↔ HasShape height claim.now }
{
    let count = claim.run.as_slice().len();
    let uncles = claim.uncles.as_slice().len();
    if claim.base > height as u32 {
        return false;
    }
    let rest = height - claim.base as u8;
    if count < 2 || count > 1 << rest || uncles > rest as usize {
        return false;
    }
    let layers = tree_height(count as u32);
    count == 1 << layers
        && claim.index as usize % count == 0
        && claim.index as usize + count <= 1 << rest
        && layers as usize + uncles <= rest as usize
}

/// The layer and the index of a claim's top, the last node of its path.
pub(crate) fn top_of(claim: &Claim) -> (u32, u32)
    requires short { IsShort claim.now }
    requires high { top_layer claim.now ≤ max_height }
    ensures layer { result.0 ≡ top_layer claim.now }
    ensures index { result.1 ≡ top_node claim.now }
{
    let layers = tree_height(claim.run.as_slice().len() as u32) as u32;
    let uncles = claim.uncles.as_slice().len() as u32;
    let node = claim.index >> layers;
    (claim.base + layers + uncles, node >> uncles)
}

/// The pairs of siblings that a claim of the right shape and padding names, and its top's digest. Pairs of
/// the run's layers that cover no block are left out. Each pair is digested once.
#[tactic(auto, using(crate::proofs::Expansions::short_run, crate::proofs::Expansions::path_first))]
pub(crate) fn expand_covered<H: NodeHash>(
    hash: H,
    alloc: Global,
    geometry: Geometry,
    claim: &Claim,
) -> Result<Expansion, AllocError>
    requires shape { HasShape (height_of (block_count geometry)) claim.now }
    requires high { height_of (block_count geometry) ≤ max_height }
    requires padded { HasPaddedRun H.digest (block_count geometry) claim.now }
    ensures { IfOk result (IsExpansion H.digest (block_count geometry) claim.now) }
{
    let count = claim.run.as_slice().len();
    let layers = tree_height(count as u32);
    let covered = covered_count(geometry, claim);
    // The run's layers have this many pairs at most.
    let most = (covered + layers as usize).min(count - 1);
    let mut pairs = Vec::with_capacity(alloc, most + claim.uncles.as_slice().len())?;
    let digest = add_run(hash, alloc, &mut pairs, geometry, claim, layers)?;
    let top_digest = add_path(hash, &mut pairs, claim, layers, digest)?;
    Ok(Expansion { pairs, top_digest })
}

/// How many nodes of a claim's run cover a block: the first of them.
#[tactic(auto, using(crate::proofs::Covered::covered_run))]
fn covered_count(geometry: Geometry, claim: &Claim) -> usize
    requires shape { IsShort claim.now }
    requires inside { claim.now.base ≤ height_of (block_count geometry) }
    ensures value { result ≡ covered_count (block_count geometry) claim.now 0 }
    ensures limit { result ≤ length claim.now.run }
{
    let real = geometry.real(claim.base as u8).saturating_sub(claim.index);
    claim.run.as_slice().len().min(real as usize)
}

/// Adds the pairs below the run's top, which lies this many layers above the run, layer by layer, and returns
/// the top's digest. Nodes that cover no block are kept only beside one that does.
fn add_run<H: NodeHash>(
    hash: H,
    alloc: Global,
    pairs: &mut Vec<ClaimedPair>,
    geometry: Geometry,
    claim: &Claim,
    layers: u8,
) -> Result<Hash32, AllocError>
    requires shape { IsShort claim.now }
    requires inside { claim.now.base ≤ height_of (block_count geometry) }
    requires padded { HasPaddedRun H.digest (block_count geometry) claim.now }
    requires layers { layers ≡ run_height claim.now }
    ensures digest { IfOk result (λ digest.
        digest ≡ row_node H.digest (run_digest claim.now) layers (run_node claim.now)) }
    ensures pairs { OnOk result (pairs.new.items
        ≡ pairs.old.items ++ run_pairs H.digest (block_count geometry) claim.now layers) }
{
    let count = covered_count(geometry, claim).div_ceil(2);
    let run = &claim.run.as_slice()[..2 * count];
    let mut padding = Padding::new(hash);
    let mut first = claim.index / 2;
    add_layer(pairs, claim.base, first, run)?;
    let mut nodes = parents(hash, alloc, run)?;
    for above in 1..layers {
        let layer = claim.base as u8 + above;
        complete(&mut padding, layer, &mut nodes)?;
        first /= 2;
        add_layer(pairs, layer as u32, first, &nodes)?;
        nodes = parents(hash, alloc, &nodes)?;
    }
    if nodes.is_empty() {
        return Ok(padding.rise(claim.base as u8 + layers));
    }
    Ok(nodes[0])
}

/// Adds the padding after an odd number of nodes of a layer, so that the last one has its sibling.
fn complete<H: NodeHash>(
    padding: &mut Padding<H>,
    layer: u8,
    nodes: &mut Vec<Hash32>,
) -> Result<(), AllocError>
    requires { padding.old ≤ layer }
    ensures low { OnOk result (padding.new ≤ layer) }
    ensures nodes { OnOk result
        (IsCompleted (padding_digest H.digest layer) nodes.old.items nodes.new.items) }
{
    if nodes.len() % 2 == 0 {
        return Ok(());
    }
    nodes.push(padding.rise(layer))?;
    Ok(())
}

/// Adds the pairs that these nodes of a layer make, below the nodes from index `first` on of the next one.
#[tactic(auto, unfolding(crate::specs::ExpansionSteps::layer_pairs))]
fn add_layer(
    pairs: &mut Vec<ClaimedPair>,
    layer: u32,
    first: u32,
    nodes: &[Hash32],
) -> Result<(), AllocError>
    requires { first + length nodes.now ≤ 2 * max_block_count }
    ensures { OnOk result ((dig : List ℕ → List ℕ) (c : Claim) (above : ℕ) → layer ≡ c.base + above
        → AreRunNodes dig c above (2 * first) nodes.now
        → pairs.new.items ≡ pairs.old.items ++ layer_pairs dig c above first
        (length nodes.now / 2)) }
{
    for i in 0..nodes.len() / 2 {
        pairs.push(ClaimedPair {
            layer,
            index: first + i as u32,
            left: nodes[2 * i],
            right: nodes[2 * i + 1],
        })?;
    }
    Ok(())
}

/// The digests of pairs of digests, eight at a time where eight remain.
#[tactic(auto, using(crate::proofs::Parents::parent_more))]
pub(crate) fn parents<H: NodeHash>(
    hash: H,
    alloc: Global,
    nodes: &[Hash32],
) -> Result<Vec<Hash32>, AllocError>
    ensures { IfOk result (λ above. AreParents H.digest nodes.now above.items
        (length nodes.now / 2)) }
{
    let count = nodes.len() / 2;
    // And room for the padding that may complete their last pair.
    let mut above = Vec::with_capacity(alloc, count + 1)?;
    add_eights(hash, &mut above, nodes)?;
    for i in count / 8 * 8..count {
        above.push(hash.pair(&nodes[2 * i], &nodes[2 * i + 1]))?;
    }
    Ok(above)
}

/// Adds the digests of the pairs in whole eights.
#[tactic(auto, using(crate::proofs::Parents::no_parents))]
fn add_eights<H: NodeHash>(
    hash: H,
    above: &mut Vec<Hash32>,
    nodes: &[Hash32],
) -> Result<(), AllocError>
    requires { above.old.items ≡ [] }
    ensures { OnOk result (AreParents H.digest nodes.now above.new.items
        (length nodes.now / 2 / 8 * 8)) }
{
    let (sixteens, _) = nodes.as_chunks::<16>();
    for sixteen in sixteens {
        above.extend_from_slice(&eight_parents(hash, sixteen))?;
    }
    Ok(())
}

/// Adds the pairs on the path from the run's top up, whose digest this is, and returns the digest of the
/// path's end.
#[tactic(auto, unfolding(crate::specs::ExpansionSteps::path_pairs))]
fn add_path<H: NodeHash>(
    hash: H,
    pairs: &mut Vec<ClaimedPair>,
    claim: &Claim,
    layers: u8,
    digest: Hash32,
) -> Result<Hash32, AllocError>
    requires layers { layers ≡ run_height claim.now }
    requires digest { digest ≡ path_digest H.digest claim.now 0 }
    requires high { claim.now.base + layers + length claim.now.uncles ≤ max_height }
    ensures digest { IfOk result (λ top. top ≡ path_digest H.digest claim.now
        (length claim.now.uncles)) }
    ensures pairs { OnOk result (pairs.new.items ≡ pairs.old.items
        ++ path_pairs H.digest claim.now (length claim.now.uncles)) }
{
    let mut own = digest;
    let mut node = claim.index >> layers;
    let mut layer = claim.base + layers as u32;
    for uncle in claim.uncles.as_slice() {
        let (left, right) = in_order(node, own, *uncle);
        pairs.push(ClaimedPair {
            layer,
            index: node / 2,
            left,
            right,
        })?;
        own = hash.pair(&left, &right);
        node /= 2;
        layer += 1;
    }
    Ok(own)
}

/// The digests of a node and its sibling, the left one first.
fn in_order(node: u32, own: Hash32, sibling: Hash32) -> (Hash32, Hash32)
    ensures { result ≡ (if node % 2 == 0 then (own, sibling) else (sibling, own)) }
{
    if node % 2 == 0 {
        (own, sibling)
    } else {
        (sibling, own)
    }
}

/// The index of a node's sibling.
pub(crate) fn sibling(node: u32) -> u32
    ensures { result ≡ sibling_of node }
{
    if node % 2 == 0 { node + 1 } else { node - 1 }
}
