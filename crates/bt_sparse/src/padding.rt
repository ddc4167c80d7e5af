//! The digests of nodes that cover no block (BEP 52), from a layer upwards, and whether a claim has them
//! where it names such nodes.
ghost use Rattle.std.specs.Prelude.{◌≡◌, ◌≤◌, ◌↔◌, IsTrue};
ghost use Rattle.bt_tree.specs.Limits.{max_height};
ghost use Rattle.bt_tree.specs.Blocks.{block_count};
ghost use Rattle.bt_tree.specs.TreeShape.{height_of};
ghost use Rattle.bt_tree.specs.Tree.{padding_digest};
ghost use Rattle.bt_sparse.specs.Claim.{HasShape};
ghost use Rattle.bt_sparse.specs.PaddingSteps.{HasPaddedRun, HasPaddedUncles};

use crate::claim::Claim;
use crate::expansion::sibling;
use bt_tree::{Geometry, Hash32, NodeHash, pad, tree_height};
use std::marker::Model;

/// The digest of the padding at a layer, from which those of the layers above come as they are needed.
///
/// A contract sees the layer.
#[derive(Drop)]
pub(crate) struct Padding<H: NodeHash> {
    hash: H,
    layer: u8,
    digest: Hash32,
}

impl<H: NodeHash> Model for Padding<H> {
    ghost use Rattle.std.specs.Prelude.{◌≡◌, ℕ};
    ghost use Rattle.bt_tree.specs.Tree.{padding_digest};

    ghost Value = { ℕ };

    ghost view = { λ a. a.layer };

    ghost invariant = { λ a. a.digest ≡ padding_digest H.digest a.layer };
}

impl<H: NodeHash> Padding<H> {
    /// The padding at the leaves, which takes no digest.
    #[tactic(auto, unfolding(bt_tree::specs::Tree::padding_digest))]
    pub(crate) fn new(hash: H) -> Padding<H>
        ensures { result ≡ 0 }
    {
        Padding {
            hash,
            layer: 0,
            digest: [0; 32],
        }
    }

    /// The digest at a layer, which is no lower than the last one.
    #[tactic(auto, using(bt_tree::proofs::TreeNodes::padding_suc))]
    pub(crate) fn rise(&mut self, layer: u8) -> Hash32
        requires { self.old ≤ layer }
        ensures digest { result ≡ padding_digest H.digest layer }
        ensures layer { self.new ≡ layer }
    {
        for _ in self.layer..layer {
            self.digest = self.hash.pair(&self.digest, &self.digest);
        }
        self.layer = layer;
        self.digest
    }
}

/// Whether each digest of a claim's run at a node that covers no block is the padding's.
pub(crate) fn is_run_padded<H: NodeHash>(hash: H, geometry: Geometry, claim: &Claim) -> bool
    requires shape { HasShape (height_of (block_count geometry)) claim.now }
    requires high { height_of (block_count geometry) ≤ max_height }
    ensures { IsTrue result ↔ HasPaddedRun H.digest (block_count geometry) claim.now }
{
    let run = claim.run.as_slice();
    let layer = claim.base as u8;
    let covered = geometry.real(layer).saturating_sub(claim.index) as usize;
    if covered >= run.len() {
        return true;
    }
    let padding = pad(hash, layer);
    for digest in &run[covered..] {
        if *digest != padding {
            return false;
        }
    }
    true
}

/// Whether each uncle of a claim that covers no block has the digest of the padding.
pub(crate) fn are_uncles_padded<H: NodeHash>(hash: H, geometry: Geometry, claim: &Claim) -> bool
    requires shape { HasShape (height_of (block_count geometry)) claim.now }
    requires high { height_of (block_count geometry) ≤ max_height }
    ensures { IsTrue result ↔ HasPaddedUncles H.digest (block_count geometry) claim.now }
{
    let layers = tree_height(claim.run.as_slice().len() as u32);
    let mut node = claim.index >> layers;
    let mut layer = claim.base as u8 + layers;
    let mut padding = Padding::new(hash);
    for uncle in claim.uncles.as_slice() {
        if sibling(node) >= geometry.real(layer) && *uncle != padding.rise(layer) {
            return false;
        }
        node /= 2;
        layer += 1;
    }
    true
}
