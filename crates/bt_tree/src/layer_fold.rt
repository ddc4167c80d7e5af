//! What the digests of a layer fold to, eight pairs at a time.

ghost use Rattle.std.specs.Prelude.{◌≡◌, ℕ, ◌+◌, ◌-◌, ◌*◌, ◌^◌, ◌<◌, ◌≤◌, ◌++◌, List, [], length, replicate, slice_index_or};
ghost use Rattle.bt_tree.specs.Limits.{max_height};
ghost use Rattle.bt_tree.specs.Tree.{padding_digest};
ghost use Rattle.bt_tree.specs.Peaks.{row_node};
ghost use Rattle.bt_tree.specs.Layers.{fold_of};

use crate::node_hash::{Hash32, NodeHash};
use crate::peaks::{self, Peaks};

/// The digest that the nodes of a layer fold to at the height of the tree: the given digests, and after them
/// the padding's. `pads` has the padding's digest for each layer.
pub(crate) fn fold<H: NodeHash>(
    hash: H,
    digests: &[Hash32],
    pads: &[Hash32; 27],
    layer: u8,
    height: u8,
) -> Hash32
    requires inside { layer ≤ height }
    requires high { height ≤ max_height }
    requires within { length digests.now ≤ 2 ^ (height - layer) }
    requires pads { (k : ℕ) → k ≤ height → slice_index_or pads.now k []
        ≡ padding_digest H.digest k }
    ensures { result ≡ fold_of H.digest (height - layer)
        (digests.now
        ++ replicate (2 ^ (height - layer) - length digests.now) (padding_digest H.digest layer)) }
{
    let padding = pads[layer as usize];
    let layers = height - layer;
    if layers < 4 {
        return fold_pairs(hash, digests, layers, padding);
    }
    let eight = eight_nodes(hash, digests, pads, layer, layers - 4);
    fold_pairs(hash, &eight, 3, padding)
}

/// The eight nodes that lie `below + 1` layers above 16 * 2^below nodes of a layer: the given ones, and after
/// them padding.
fn eight_nodes<H: NodeHash>(
    hash: H,
    digests: &[Hash32],
    pads: &[Hash32; 27],
    layer: u8,
    below: u8,
) -> [Hash32; 8]
    requires high { layer + below < max_height }
    requires within { length digests.now ≤ 16 * 2 ^ below }
    requires pads { (k : ℕ) → k ≤ layer + below + 1
        → slice_index_or pads.now k [] ≡ padding_digest H.digest k }
    ensures { (row : ℕ → List ℕ)
        → ((i : ℕ) → i < length digests.now → slice_index_or digests.now i [] ≡ row i)
        → ((i : ℕ) → length digests.now ≤ i → i < 16 * 2 ^ below → row i
        ≡ padding_digest H.digest layer)
        → (j : ℕ) → j < 8 → slice_index_or result j [] ≡ row_node H.digest row (below + 1) j }
{
    if digests.is_empty() {
        return [pads[(layer + below + 1) as usize]; 8];
    }
    if below == 0 {
        return eight_parents(hash, &sixteen(digests, pads[layer as usize]));
    }
    let (first, second) = digests.split_at(digests.len().min(8 << below));
    let left = eight_nodes(hash, first, pads, layer, below - 1);
    let right = eight_nodes(hash, second, pads, layer, below - 1);
    eight_parents(hash, &side_by_side(&left, &right))
}

/// The digests of the parents of sixteen nodes that lie side by side, each pair digested with the others.
pub fn eight_parents<H: NodeHash>(hash: H, nodes: &[Hash32; 16]) -> [Hash32; 8]
    ensures { (j : ℕ) → j < 8 → slice_index_or result j []
        ≡ H.digest (slice_index_or nodes.now (2 * j) [] ++ slice_index_or nodes.now
        (2 * j + 1) []) }
{
    let mut pairs = [[0; 64]; 8];
    for j in 0..8usize {
        pairs[j] = pair_bytes(&nodes[2 * j], &nodes[2 * j + 1]);
    }
    hash.pairs8(&pairs)
}

/// The bytes of two digests, the left one first: what the parent of two nodes is the digest of.
pub fn pair_bytes(left: &Hash32, right: &Hash32) -> [u8; 64]
    ensures { result ≡ left.now ++ right.now }
{
    let mut pair = [0; 64];
    pair[0..32].copy_from_slice(&left[..]);
    pair[32..64].copy_from_slice(&right[..]);
    pair
}

/// Sixteen digests: those that are given, and after them the padding's.
fn sixteen(digests: &[Hash32], padding: Hash32) -> [Hash32; 16]
    requires { length digests.now ≤ 16 }
    ensures given { (i : ℕ) → i < length digests.now
        → slice_index_or result i [] ≡ slice_index_or digests.now i [] }
    ensures padding { (i : ℕ) → length digests.now ≤ i → i < 16 → slice_index_or result i []
        ≡ padding }
{
    let mut nodes = [padding; 16];
    for i in 0..digests.len() {
        nodes[i] = digests[i];
    }
    nodes
}

/// Sixteen digests: eight, and the eight after them.
fn side_by_side(left: &[Hash32; 8], right: &[Hash32; 8]) -> [Hash32; 16]
    ensures left { (i : ℕ) → i < 8 → slice_index_or result i [] ≡ slice_index_or left.now i [] }
    ensures right { (i : ℕ) → i < 8 → slice_index_or result (8 + i) []
        ≡ slice_index_or right.now i [] }
{
    [
        left[0], left[1], left[2], left[3], left[4], left[5], left[6], left[7], right[0], right[1],
        right[2], right[3], right[4], right[5], right[6], right[7],
    ]
}

/// The digest that 2^layers digests fold to, a pair at a time: the given ones, and after them that of the
/// padding.
fn fold_pairs<H: NodeHash>(hash: H, digests: &[Hash32], layers: u8, padding: Hash32) -> Hash32
    requires high { layers ≤ max_height }
    requires within { length digests.now ≤ 2 ^ layers }
    ensures { result
        ≡ fold_of H.digest layers (digests.now ++ replicate (2 ^ layers - length digests.now)
        padding) }
{
    let mut peaks = Peaks::new();
    peaks::add_all(hash, &mut peaks, 0, digests);
    peaks::close(
        hash,
        peaks.as_slice(),
        digests.len() as u32,
        layers,
        padding,
    )
}
