//! A tree made from the digests of one layer, as a torrent's `piece layers` have them (BEP 52): all layers
//! above it are computed.
ghost use Rattle.std.specs.Prelude.{◌≡◌, ◌≢◌, ℕ, ◌+◌, ◌-◌, ◌*◌, ◌<◌, ◌≤◌, ◌↔◌, List, IfOk, OnOk, length, slice_index_or, []};
ghost use Rattle.bt_tree.specs.Limits.{max_height, max_block_count};
ghost use Rattle.bt_tree.specs.Blocks.{block_count};
ghost use Rattle.bt_tree.specs.TreeShape.{height_of, real_width};
ghost use Rattle.bt_tree.specs.Tree.{padding_digest};
ghost use Rattle.bt_tree.specs.Peaks.{row_node};
ghost use Rattle.bt_tree.specs.Layers.{IsLayer, HasLayerSize};
ghost use Rattle.bt_sparse.specs.NodeMap.{nodes_in};
ghost use Rattle.bt_sparse.specs.Layer.{HoldsLayer, IsToldTree};
ghost use Rattle.bt_sparse.specs.LayerSteps.{AreKnown, IsFilled, IsWhole};

use crate::expansion::parents;
use crate::node_map::NodeMap;
use crate::page_table::PAGE_LEN;
use crate::sparse_tree::SparseTree;
use bt_tree::{Geometry, Hash32, LayerError, NodeHash, check_layer, pad};
use std::alloc::{AllocError, Global};

impl<H: NodeHash> SparseTree<H> {
    /// The tree of a file of which a layer is known, and so all above it: `bytes` are the digests of the
    /// layer's nodes that cover a block, 32 bytes each, as a torrent's `piece layers` have them (BEP 52).
    ///
    /// Errors: `Size` where the tree has no such layer, or the layer has another length; `Differs` where the digests
    /// fold to another root; `OutOfMemory`.
    pub fn with_layer(
        alloc: Global,
        hash: H,
        geometry: Geometry,
        root: Hash32,
        layer: u8,
        bytes: &[u8],
    ) -> Result<SparseTree<H>, LayerError>
        ensures ok { IfOk result (HoldsLayer H.digest geometry root layer bytes.now) }
        ensures size { (result ≡ Err LayerError.Size)
            ↔ (¬ HasLayerSize (block_count geometry) layer bytes.now) }
        ensures differs { (result ≡ Err LayerError.Differs)
            ↔ (HasLayerSize (block_count geometry) layer bytes.now
            × (¬ IsLayer H.digest (block_count geometry) root layer bytes.now)) }
    {
        check_layer(hash, geometry, &root, layer, bytes)?;
        match SparseTree::from_layer(alloc, hash, geometry, root, layer, bytes) {
            Ok(tree) => Ok(tree),
            Err(AllocError) => Err(LayerError::OutOfMemory),
        }
    }

    /// The tree of a file as a torrent tells it (BEP 52): down to the layer of these bytes, as `with_layer` has
    /// them, or, where there are none, the root alone. That they give the root was seen when the torrent was
    /// read, and is not looked at again. An error is out of memory.
    pub fn from_torrent(
        alloc: Global,
        hash: H,
        geometry: Geometry,
        root: Hash32,
        layer: u8,
        bytes: &[u8],
    ) -> Result<SparseTree<H>, AllocError>
        requires { bytes.now ≢ [] → IsLayer H.digest (block_count geometry) root layer bytes.now }
        ensures { IfOk result (IsToldTree H.digest geometry root layer bytes.now) }
    {
        if bytes.is_empty() {
            return SparseTree::new(alloc, hash, geometry, root);
        }
        SparseTree::from_layer(alloc, hash, geometry, root, layer, bytes)
    }

    /// The tree of a file of which these bytes are a layer.
    fn from_layer(
        alloc: Global,
        hash: H,
        geometry: Geometry,
        root: Hash32,
        layer: u8,
        bytes: &[u8],
    ) -> Result<SparseTree<H>, AllocError>
        requires { IsLayer H.digest (block_count geometry) root layer bytes.now }
        ensures { IfOk result (HoldsLayer H.digest geometry root layer bytes.now) }
    {
        // A geometry's length is lawful: its clause says so.
        let _ = geometry.length();
        let (digests, _) = bytes.as_chunks::<32>();
        let nodes = nodes_from(alloc, hash, geometry, layer, digests)?;
        Ok(SparseTree {
            alloc,
            hash,
            geometry,
            root,
            nodes,
        })
    }
}

/// The nodes of a layer that cover a block, and those of all layers above.
fn nodes_from<H: NodeHash>(
    alloc: Global,
    hash: H,
    geometry: Geometry,
    layer: u8,
    digests: &[Hash32],
) -> Result<NodeMap, AllocError>
    requires inside { layer ≤ height_of (block_count geometry) }
    requires size { length digests.now ≡ real_width (block_count geometry) layer }
    ensures { IfOk result (λ nodes. (row : ℕ → List ℕ)
        → ((i : ℕ) → i < length digests.now → row i ≡ slice_index_or digests.now i [])
        → ((i : ℕ) → length digests.now ≤ i → row i ≡ padding_digest H.digest layer)
        → IsWhole H.digest (block_count geometry) row layer (nodes_in nodes)) }
{
    let mut nodes = NodeMap::new(alloc);
    put_nodes(&mut nodes, layer, 0, digests.len() as u32, digests)?;
    let mut padding = pad(hash, layer);
    for below in layer..geometry.height() {
        let width = geometry.real(below + 1);
        add_parents(hash, alloc, &mut nodes, below, width, &padding)?;
        padding = hash.pair(&padding, &padding);
    }
    Ok(nodes)
}

/// Puts nodes of a layer that is this wide, from an index on.
fn put_nodes(
    nodes: &mut NodeMap,
    layer: u8,
    first: u32,
    width: u32,
    digests: &[Hash32],
) -> Result<(), AllocError>
    requires inside { first + length digests.now ≤ width }
    ensures { OnOk result ((dig : List ℕ → List ℕ) (n base : ℕ) (row : ℕ → List ℕ)
        → width ≡ real_width n layer
        → ((i : ℕ) → i < length digests.now
        → slice_index_or digests.now i [] ≡ row_node dig row (layer - base) (first + i))
        → IsFilled dig n row base layer first (nodes_in nodes.old)
        → IsFilled dig n row base layer (first + length digests.now) (nodes_in nodes.new)) }
{
    for (i, digest) in digests.iter().enumerate() {
        nodes.insert(layer as u32, first + i as u32, width, *digest)?;
    }
    Ok(())
}

/// Puts the nodes above a layer, this many of which cover a block, a page of them at a time.
fn add_parents<H: NodeHash>(
    hash: H,
    alloc: Global,
    nodes: &mut NodeMap,
    below: u8,
    width: u32,
    padding: &Hash32,
) -> Result<(), AllocError>
    requires high { below < max_height }
    requires narrow { width ≤ max_block_count }
    ensures { OnOk result ((n base : ℕ) (row : ℕ → List ℕ) → base ≤ below → width ≡ real_width n
        (below + 1)
        → padding.now ≡ padding_digest H.digest below
        → IsFilled H.digest n row base (below + 1) 0 (nodes_in nodes.old)
        → IsFilled H.digest n row base (below + 1) width (nodes_in nodes.new)) }
{
    for page in 0..width.div_ceil(PAGE_LEN) {
        let first = page * PAGE_LEN;
        let count = (width - first).min(PAGE_LEN);
        let children = children(alloc, nodes, below, 2 * first, 2 * count, padding)?;
        let digests = parents(hash, alloc, &children)?;
        put_nodes(nodes, below + 1, first, width, &digests)?;
    }
    Ok(())
}

/// The digests of this many nodes of a layer, from an index on; the padding's, where there is none.
fn children(
    alloc: Global,
    nodes: &NodeMap,
    layer: u8,
    first: u32,
    count: u32,
    padding: &Hash32,
) -> Result<Vec<Hash32>, AllocError>
    requires { first + count ≤ 2 * max_block_count }
    ensures { IfOk result (λ list. AreKnown (nodes_in nodes.now) layer first padding.now
        list.items count) }
{
    let mut list = Vec::with_capacity(alloc, count as usize)?;
    for i in 0..count {
        list.push(nodes.get(layer as u32, first + i).unwrap_or(*padding))?;
    }
    Ok(list)
}
