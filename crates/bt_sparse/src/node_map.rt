//! The digests that a tree holds, by layer and index.
ghost use Rattle.std.specs.Prelude.{◌≡◌, ◌+◌, ◌%◌, ◌/◌, ◌<◌, ◌≤◌, ◌↔◌, ℕ, [], None, IsTrue, IsSome, OnOk, length, slice_index_or};
ghost use Rattle.std.specs.FinMap as finite;
ghost use Rattle.bt_sparse.specs.Page.{page_length};
ghost use Rattle.bt_sparse.specs.NodeMap.{nodes_in, digest_at, HasPlace, KeepsPlaces};

use crate::layer_pages::LayerPages;
use bt_tree::Hash32;
use std::alloc::{AllocError, Global};
use std::marker::Model;

/// Digests at nodes, which are named by layer and index. Each layer has its own pages.
#[derive(Drop)]
pub(crate) struct NodeMap {
    alloc: Global,
    layers: Vec<LayerPages>,
}

impl Model for NodeMap {
    ghost use Rattle.bt_sparse.specs.Page.{page_length};
    ghost use Rattle.bt_sparse.specs.NodeMap.{Layers};

    ghost Value = { Layers };

    ghost view = { λ a. a.layers.items };
}

impl NodeMap {
    #[tactic(auto, using(crate::proofs::NodeMaps::no_nodes))]
    pub(crate) fn new(alloc: Global) -> NodeMap
        ensures { nodes_in result ≡ finite.empty }
    {
        NodeMap {
            alloc,
            layers: Vec::new(alloc),
        }
    }

    /// The digest at a node.
    #[tactic(auto, using(crate::proofs::NodeMaps::node_at))]
    pub(crate) fn get(&self, layer: u32, index: u32) -> Option<Hash32>
        ensures { result ≡ digest_at (nodes_in self.now) layer index }
    {
        match self.layers.get(layer as usize) {
            Some(pages) => pages.get(index),
            None => None,
        }
    }

    /// How many nodes of a layer in a row from this one on have a digest, as far as its page goes.
    pub(crate) fn held_run(&self, layer: u32, index: u32) -> u32
        ensures held { (j : ℕ) → j < result → IsSome (digest_at (nodes_in self.now) layer
            (index + j)) }
        ensures none { result ≡ 0 → digest_at (nodes_in self.now) layer index ≡ None }
        ensures inside { index % page_length + result ≤ page_length }
    {
        let Some(pages) = self.layers.get(layer as usize) else {
            return 0;
        };
        pages.held_run(index)
    }

    /// Makes the page of a node, in a layer that is this wide, with places for all of its nodes.
    pub(crate) fn reach(&mut self, layer: u32, index: u32, width: u32) -> Result<(), AllocError>
        requires { index < width }
        ensures nodes { nodes_in self.new ≡ nodes_in self.old }
        ensures longer { KeepsPlaces self.old self.new }
        ensures ready { OnOk result ((i : ℕ) → i / page_length ≡ index / page_length → i < width
            → HasPlace self.new layer i) }
    {
        self.lengthen(layer as usize + 1)?;
        self.layers[layer as usize].reach(self.alloc, index, width)
    }

    /// Lengthens the table to this many layers. New ones have no pages.
    #[tactic(auto, using(crate::proofs::PageTables::pushed_default))]
    fn lengthen(&mut self, count: usize) -> Result<(), AllocError>
        ensures same { (layer : ℕ) → slice_index_or self.new layer []
            ≡ slice_index_or self.old layer [] }
        ensures ready { OnOk result (count ≤ length self.new) }
    {
        self.layers
            .reserve_exact(count.saturating_sub(self.layers.len()))?;
        for _ in self.layers.len()..count {
            self.layers.push(LayerPages::new(self.alloc))?;
        }
        Ok(())
    }

    /// Puts a digest at a node, whose page is made, and returns whether there was none.
    pub(crate) fn put(&mut self, layer: u32, index: u32, digest: Hash32) -> bool
        requires { HasPlace self.old layer index }
        ensures is_new { IsTrue result ↔ (digest_at (nodes_in self.old) layer index ≡ None) }
        ensures nodes { nodes_in self.new ≡ finite.insert (nodes_in self.old)
            (layer, index) digest }
        ensures longer { KeepsPlaces self.old self.new }
    {
        self.layers[layer as usize].put(index, digest)
    }

    /// Makes the page of a node, and puts a digest there.
    pub(crate) fn insert(
        &mut self,
        layer: u32,
        index: u32,
        width: u32,
        digest: Hash32,
    ) -> Result<(), AllocError>
        requires { index < width }
        ensures { OnOk result (nodes_in self.new ≡ finite.insert (nodes_in self.old)
            (layer, index) digest) }
    {
        self.reach(layer, index, width)?;
        self.put(layer, index, digest);
        Ok(())
    }
}
