//! Which key to ask a peer for (BEP 52, "hash request"), so that the leaf of a block becomes known.
ghost use Rattle.std.specs.Prelude.{◌<◌, ◌↔◌, IsSome, IsNone, IfSome};
ghost use Rattle.bt_sparse.specs.SparseTree.{held_at, blocks_of};
ghost use Rattle.bt_hashreq.specs.Request.{IsPlan};

use crate::key::HashKey;
use bt_sparse::SparseTree;
use bt_tree::NodeHash;

/// The height of the longest run that a key may name (BEP 52 advises 512 digests at most).
pub const MAX_RUN_HEIGHT: u32 = 9;

/// The key to ask a peer for, so that a leaf is known: the run of leaves around it below the nearest node
/// that is held, 512 at most, with the uncles up to that node. None where the leaf is known. The leaf is that
/// of a block.
pub fn plan<H: NodeHash>(tree: &SparseTree<H>, leaf: u32) -> Option<HashKey>
    requires { leaf < blocks_of tree.now }
    ensures none { IsNone result ↔ IsSome (held_at tree.now 0 leaf) }
    ensures plan { IfSome result (IsPlan tree.now leaf) }
{
    let anchor = tree.anchor(leaf);
    if anchor == 0 {
        return None;
    }
    let height = anchor.min(MAX_RUN_HEIGHT);
    Some(HashKey {
        root: tree.root(),
        base: 0,
        index: (leaf >> height) << height,
        length: 1 << height,
        layers: anchor - 1,
    })
}
