//! A file's hash tree of which some nodes are held: what is known of a node, and which held node is the
//! nearest above a leaf.
ghost use Rattle.std.specs.Prelude.{◌≡◌, ◌<◌, ◌≤◌, IfOk};
ghost use Rattle.bt_tree.specs.Limits.{max_height};
ghost use Rattle.bt_sparse.specs.SparseTree.{blocks_of, held_at, value_at, root_facts, IsSound};
ghost use Rattle.bt_sparse.specs.Anchor.{IsAnchor};

use crate::node_map::NodeMap;
use bt_tree::{Geometry, Hash32, NodeHash, pad};
use std::alloc::{AllocError, Global};
use std::marker::Model;

/// A file's hash tree of which some nodes are held, the root among them.
#[derive(Drop)]
pub struct SparseTree<H: NodeHash> {
    pub(crate) alloc: Global,
    pub(crate) hash: H,
    pub(crate) geometry: Geometry,
    pub(crate) root: Hash32,
    pub(crate) nodes: NodeMap,
}

impl<H: NodeHash> Model for SparseTree<H> {
    ghost use Rattle.bt_sparse.specs.NodeMap.{nodes_in};
    ghost use Rattle.bt_sparse.specs.SparseTree.{Facts, facts_code, IsSound};

    ghost Value = { Facts };

    ghost coded = { facts_code };

    ghost view = { λ a. record {
      file_length = a.geometry;
      root = a.root;
      nodes = nodes_in
          a.nodes;
    } };

    ghost invariant = { λ a. IsSound H.digest
        record { file_length = a.geometry; root = a.root; nodes = nodes_in a.nodes } };
}

impl<H: NodeHash> SparseTree<H> {
    /// The tree of a file of which the root alone is known. An error is out of memory.
    pub fn new(
        alloc: Global,
        hash: H,
        geometry: Geometry,
        root: Hash32,
    ) -> Result<SparseTree<H>, AllocError>
        ensures { IfOk result (λ tree. tree ≡ root_facts geometry root) }
    {
        // A geometry's length is lawful, so that the root covers a block: its clause says so.
        let _ = geometry.length();
        let mut nodes = NodeMap::new(alloc);
        nodes.insert(geometry.height() as u32, 0, 1, root)?;
        Ok(SparseTree {
            alloc,
            hash,
            geometry,
            root,
            nodes,
        })
    }

    /// The shape of the file's tree.
    pub fn geometry(&self) -> Geometry
        ensures value { result ≡ self.now.file_length }
        ensures sound { IsSound H.digest self.now }
    {
        self.geometry
    }

    /// The pieces root, which is held.
    pub fn root(&self) -> Hash32
        ensures value { result ≡ self.now.root }
        ensures sound { IsSound H.digest self.now }
    {
        self.root
    }

    /// What is held at a node.
    pub(crate) fn held(&self, layer: u32, index: u32) -> Option<Hash32>
        ensures { result ≡ held_at self.now layer index }
    {
        self.nodes.get(layer, index)
    }

    /// What is known of a node: the digest of the padding where the node covers no block, else the digest
    /// that is held; None where the node is not held, and outside the tree.
    pub fn known(&self, layer: u32, index: u32) -> Option<Hash32>
        ensures { result ≡ value_at H.digest self.now layer index }
    {
        if layer > self.geometry.height() as u32 {
            return None;
        }
        let layer = layer as u8;
        if index >= self.geometry.width(layer) {
            None
        } else if index < self.geometry.real(layer) {
            self.held(layer as u32, index)
        } else {
            Some(pad(self.hash, layer))
        }
    }

    /// The layer of the nearest node above a leaf that is held, 0 for the leaf itself. The leaf is that of a
    /// block.
    pub fn anchor(&self, leaf: u32) -> u32
        requires { leaf < blocks_of self.now }
        ensures nearest { IsAnchor self.now leaf result }
        ensures limit { result ≤ max_height }
    {
        let height = self.geometry.height() as u32;
        for layer in 0..height {
            if self.held(layer, leaf >> layer).is_some() {
                return layer;
            }
        }
        height
    }
}
