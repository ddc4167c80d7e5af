//! A layer of a tree as bytes, as a torrent's `piece layers` have it (BEP 52): which root it gives, and
//! whether it is a layer of a tree with a given root.
ghost use Rattle.std.specs.Prelude.{◌≡◌, ◌≢◌, ◌-◌, ◌↔◌, IsOk};
ghost use Rattle.bt_tree.specs.Blocks.{block_count};
ghost use Rattle.bt_tree.specs.TreeShape.{height_of};
ghost use Rattle.bt_tree.specs.Layers.{IsLayer, HasLayerSize, fold_of, layer_digests};

use crate::layer_fold::fold;
use crate::node_hash::{Hash32, NodeHash};
use crate::padding::pads;
use crate::tree_shape::Geometry;
use thiserror::Error;

/// Why bytes are no layer of a tree.
#[derive(Clone, Copy, Debug, PartialEq, Eq, Error)]
pub enum LayerError {
    /// The tree has no such layer, or the bytes are not 32 for each of its nodes that cover a block.
    #[error("the layer has another size")]
    Size,
    /// The layer's digests give another root.
    #[error("the layer has another root")]
    Differs,
    /// No memory was left to keep the layer. `check_layer` takes none and never returns this.
    #[error("out of memory")]
    OutOfMemory,
}

/// The root of a tree by the bytes of a layer, which have its size: the digests of the layer's nodes that
/// cover a block, from the left, 32 bytes each. The others are known: they have the digest of `pad`.
pub fn layer_root<H: NodeHash>(hash: H, geometry: Geometry, layer: u8, bytes: &[u8]) -> Hash32
    requires { HasLayerSize (block_count geometry) layer bytes.now }
    ensures { result ≡ fold_of H.digest (height_of (block_count geometry) - layer)
        (layer_digests H.digest (block_count geometry) layer bytes.now) }
{
    let height = geometry.height();
    let (digests, _) = bytes.as_chunks::<32>();
    fold(hash, digests, &pads(hash, height), layer, height)
}

/// Whether the bytes are a layer of a tree with this root: the digests of the layer's nodes that cover a
/// block, from the left, 32 bytes each. The others are known: they have the digest of `pad`.
///
/// Errors: `Size` where the layer is above the root, or the bytes are not 32 for each of its nodes that cover a block;
/// `Differs` where the digests fold to another root.
pub fn check_layer<H: NodeHash>(
    hash: H,
    geometry: Geometry,
    root: &Hash32,
    layer: u8,
    bytes: &[u8],
) -> Result<(), LayerError>
    ensures variant { IsOk result ↔ IsLayer H.digest (block_count geometry) root.now layer
        bytes.now }
    ensures size { (result ≡ Err LayerError.Size)
        ↔ (¬ HasLayerSize (block_count geometry) layer bytes.now) }
    ensures differs { (result ≡ Err LayerError.Differs)
        ↔ (HasLayerSize (block_count geometry) layer bytes.now
        × (¬ IsLayer H.digest (block_count geometry) root.now layer bytes.now)) }
    ensures no_memory { result ≢ Err LayerError.OutOfMemory }
{
    if layer > geometry.height() || bytes.len() != 32 * geometry.real(layer) as usize {
        return Err(LayerError::Size);
    }
    if layer_root(hash, geometry, layer, bytes) == *root {
        Ok(())
    } else {
        Err(LayerError::Differs)
    }
}
