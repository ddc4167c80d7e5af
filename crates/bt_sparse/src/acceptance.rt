//! The acceptance of a claim: the tree checks it against what it holds, and takes all of its nodes that cover
//! a block, or none.
ghost use Rattle.std.specs.Prelude.{◌≡◌, ◌≢◌, ℕ, ◌+◌, ◌*◌, ◌<◌, ◌≤◌, List, ◌^◌, IfOk, IfErr, IfSome, OnErr, OnOk, MatchOption, length};
ghost use Rattle.std.specs.List.{All};
ghost use Rattle.std.specs.FinMap as finite;
ghost use Rattle.bt_tree.specs.Limits.{max_height};
ghost use Rattle.bt_tree.specs.Blocks.{block_count};
ghost use Rattle.bt_tree.specs.TreeShape.{height_of, real_width};
ghost use Rattle.bt_sparse.specs.NodeMap.{nodes_in, HasPlace, KeepsPlaces};
ghost use Rattle.bt_sparse.specs.SparseTree.{blocks_of, height, IsRooted};
ghost use Rattle.bt_sparse.specs.Acceptance.{Accepts, IsRefused, HasHeldTop};
ghost use Rattle.bt_sparse.specs.ExpansionSteps.{IsPairOf};
ghost use Rattle.bt_sparse.specs.AcceptanceSteps.{IsPairIn, IsPadded, HasNoDifference, IsDifference, higher_of, IsHighestOf, IsPut, AgreesAt, IsGrownBy, HangsFrom, IsExpandedClaim, HasPlaces};

use crate::claim::{Claim, ProofError};
use crate::expansion::{ClaimedPair, Expansion, expand_covered, has_shape, top_of};
use crate::node_map::NodeMap;
use crate::padding::{are_uncles_padded, is_run_padded};
use crate::sparse_tree::SparseTree;
use bt_tree::{Geometry, Hash32, NodeHash, pair_bytes};
use std::alloc::AllocError;

/// A pair of siblings that a claim names, and the tree's digests of the two, of which one or both differ.
#[derive(Clone, Copy)]
struct Difference {
    pair: ClaimedPair,
    left: Hash32,
    right: Hash32,
}

/// Of two differences the higher one, and in one layer the one to the left.
fn higher(found: Option<Difference>, next: Option<Difference>) -> Option<Difference>
    ensures { result ≡ higher_of found next }
{
    match (found, next) {
        (None, _) => next,
        (Some(_), None) => found,
        (Some(f), Some(n)) => {
            let is_above = n.pair.layer > f.pair.layer;
            let is_left = n.pair.layer == f.pair.layer && n.pair.index < f.pair.index;
            if is_above || is_left { next } else { found }
        }
    }
}

impl<H: NodeHash> SparseTree<H> {
    /// Takes a claim, and returns how many nodes are newly held. A refusal leaves the tree as it was.
    ///
    /// The refusals are P1, P3, P4, P5 and P6 of `ProofError`, in this order, and P7: only where the shape
    /// and the padding are right and the top is held, in place of Ok, P5 or P6.
    pub fn accept(&mut self, claim: &Claim) -> Result<u32, ProofError>
        ensures ok { IfOk result (λ _. Accepts H.digest self.old claim.now self.new) }
        ensures count { IfOk result (λ count. finite.len self.new.nodes ≡ finite.len self.old.nodes
            + count) }
        ensures refused { IfErr result (IsRefused H.digest self.old claim.now) }
        ensures memory { IfErr result (λ error. error ≡ ProofError.OutOfMemory
            → HasHeldTop H.digest self.old claim.now) }
        ensures unchanged { OnErr result (self.new ≡ self.old) }
    {
        let expansion = self.check(claim)?;
        let pairs = expansion.pairs.as_slice();
        // All pages before the first digest, so that out of memory leaves the facts as they were.
        make_pages(self.geometry, &mut self.nodes, pairs)?;
        Ok(put_pairs(self.geometry, &mut self.nodes, pairs))
    }

    /// What a claim names, where the tree can accept it.
    fn check(&self, claim: &Claim) -> Result<Expansion, ProofError>
        ensures ok { IfOk result (IsExpandedClaim H.digest self.now claim.now) }
        ensures refused { IfErr result (IsRefused H.digest self.now claim.now) }
        ensures memory { IfErr result (λ error. error ≡ ProofError.OutOfMemory
            → HasHeldTop H.digest self.now claim.now) }
    {
        let top = self.top(claim)?;
        let expansion = expand_covered(self.hash, self.alloc, self.geometry, claim)?;
        if top != expansion.top_digest {
            return Err(ProofError::TopDiffers);
        }
        if let Some(found) = self.highest_difference(expansion.pairs.as_slice()) {
            return Err(ProofError::Clash {
                layer: found.pair.layer + 1,
                index: found.pair.index,
                ours: pair_bytes(&found.left, &found.right),
                theirs: pair_bytes(&found.pair.left, &found.pair.right),
            });
        }
        Ok(expansion)
    }

    /// The digest that is held at a claim's top, where the claim's shape and padding are right. No node of
    /// the claim is digested for this, and no memory taken.
    fn top(&self, claim: &Claim) -> Result<Hash32, ProofError>
        ensures ok { IfOk result (HangsFrom H.digest self.now claim.now) }
        ensures refused { IfErr result (IsRefused H.digest self.now claim.now) }
        ensures no_memory { IfErr result (λ error. error ≢ ProofError.OutOfMemory) }
    {
        if !has_shape(self.geometry.height(), claim) {
            return Err(ProofError::Shape);
        }
        if !is_run_padded(self.hash, self.geometry, claim)
            || !are_uncles_padded(self.hash, self.geometry, claim)
        {
            return Err(ProofError::Padding);
        }
        let (layer, node) = top_of(claim);
        self.held(layer, node).ok_or(ProofError::NoAnchor)
    }

    /// The highest of these pairs of which the tree knows another digest, and in one layer the leftmost.
    fn highest_difference(&self, pairs: &[ClaimedPair]) -> Option<Difference>
        requires inside { All (IsPairIn (height self.now)) pairs.now }
        requires padded { All (IsPadded H.digest (blocks_of self.now)) pairs.now }
        requires rooted { IsRooted H.digest self.now }
        ensures { IsHighestOf H.digest self.now pairs.now result }
    {
        let mut highest = None;
        for pair in pairs {
            highest = higher(highest, self.difference(pair));
        }
        highest
    }

    /// The tree's digests of a pair, where both are known and one or both differ.
    fn difference(&self, pair: &ClaimedPair) -> Option<Difference>
        requires inside { IsPairIn (height self.now) pair.now }
        requires padded { IsPadded H.digest (blocks_of self.now) pair.now }
        requires rooted { IsRooted H.digest self.now }
        ensures pair { IfSome result (λ difference. difference.pair ≡ pair.now) }
        ensures differs { MatchOption result (HasNoDifference H.digest self.now pair.now)
            (IsDifference H.digest self.now) }
    {
        // In a rooted tree a held node's sibling is held too, or is padding; and the padding was compared.
        let left = self.held(pair.layer, 2 * pair.index)?;
        let right = self
            .held(pair.layer, 2 * pair.index + 1)
            .unwrap_or(pair.right);
        if left == pair.left && right == pair.right {
            return None;
        }
        Some(Difference {
            pair: *pair,
            left,
            right,
        })
    }
}

/// Makes the pages of these pairs' nodes that cover a block.
fn make_pages(
    geometry: Geometry,
    nodes: &mut NodeMap,
    pairs: &[ClaimedPair],
) -> Result<(), AllocError>
    requires { All (IsPairIn (height_of (block_count geometry))) pairs.now }
    ensures nodes { nodes_in nodes.new ≡ nodes_in nodes.old }
    ensures ready { OnOk result (All (HasPlaces (block_count geometry) nodes.new) pairs.now) }
{
    for pair in pairs {
        let width = geometry.real(pair.layer as u8);
        if 2 * pair.index < width {
            nodes.reach(pair.layer, 2 * pair.index, width)?;
        }
    }
    Ok(())
}

/// Puts the digests of these pairs' nodes that cover a block, and returns how many of these nodes are new.
/// Their pages are made.
#[tactic(auto, using(crate::proofs::Growths::place_stays, crate::proofs::Growths::none_more))]
fn put_pairs(geometry: Geometry, nodes: &mut NodeMap, pairs: &[ClaimedPair]) -> u32
    requires inside { All (IsPairIn (height_of (block_count geometry))) pairs.now }
    requires narrow { length pairs.now < 2 ^ 28 }
    requires ready { All (HasPlaces (block_count geometry) nodes.old) pairs.now }
    ensures { (dig : List ℕ → List ℕ) (c : Claim) → All (IsPairOf dig c) pairs.now
        → AgreesAt dig (nodes_in nodes.old) c
        → IsGrownBy dig c (block_count geometry) (nodes_in nodes.old)
        (nodes_in nodes.new) result pairs.now }
{
    let mut count = 0;
    for pair in pairs {
        count += put(geometry, nodes, pair.layer, 2 * pair.index, &pair.left);
        count += put(geometry, nodes, pair.layer, 2 * pair.index + 1, &pair.right);
    }
    count
}

/// Puts a digest at a node where that covers a block, and returns how many nodes are new: 1 or 0.
fn put(geometry: Geometry, nodes: &mut NodeMap, layer: u32, index: u32, digest: &Hash32) -> u32
    requires inside { layer ≤ height_of (block_count geometry) }
    requires high { layer ≤ max_height }
    requires ready { index < real_width (block_count geometry) layer
        → HasPlace nodes.old layer index }
    ensures put { IsPut (block_count geometry) layer index digest.now (nodes_in nodes.old)
        (nodes_in nodes.new) result }
    ensures longer { KeepsPlaces nodes.old nodes.new }
{
    if index >= geometry.real(layer as u8) {
        return 0;
    }
    u32::from(nodes.put(layer, index, *digest))
}
