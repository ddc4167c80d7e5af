//! Which files and which tree belong to a root: files with the same root share one tree.
ghost use Rattle.std.specs.Prelude.{◌≡◌};
ghost use Rattle.bt_engine_state.specs.Roots.{number_of};

use bt_tree::Hash32;
use std::collections::BTreeMap;

/// Which tree and which files each root has.
#[derive(Drop)]
pub struct Roots {
    /// For each tree the first file that has it.
    pub first_files: Vec<u32>,
    /// For each file that has a byte the next one of its root that has one; the count of files where there is
    /// none.
    pub next_files: Vec<u32>,
    /// The index of each root's tree.
    pub trees: BTreeMap<Hash32, u32>,
}

impl Roots {
    /// The index of the tree of a root, if there is one.
    pub fn tree_of(&self, root: &Hash32) -> Option<u32>
        ensures { result ≡ number_of self.now.trees root.now }
    {
        self.trees.get(root).copied()
    }
}
