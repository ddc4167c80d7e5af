//! The search for the next block whose leaf is not known.
ghost use Rattle.std.specs.Prelude.{IfSome, IfNone};
ghost use Rattle.bt_sparse.specs.SparseTree.{blocks_of};
ghost use Rattle.bt_sparse.specs.Unknown.{HoldsLeaves, IsNextUnknown};

use crate::sparse_tree::SparseTree;
use bt_tree::NodeHash;

impl<H: NodeHash> SparseTree<H> {
    /// The first block from this one on whose leaf is not known; None where the leaf of each is. The leaves
    /// are looked at a page at a time, by the bits that say which are there.
    pub fn next_unknown(&self, from: u32) -> Option<u32>
        ensures some { IfSome result (IsNextUnknown self.now from) }
        ensures none { IfNone result (HoldsLeaves self.now from (blocks_of self.now)) }
    {
        let blocks = self.geometry.blocks();
        let mut leaf = from;
        while leaf < blocks {
            let held = self.nodes.held_run(0, leaf);
            if held == 0 {
                return Some(leaf);
            }
            leaf += held;
        }
        None
    }
}
