//! The digest above a row of nodes that come in order. Of those that came, only the digests of the widest
//! whole nodes over them are kept.
ghost use Rattle.std.specs.Prelude.{◌≡◌, ℕ, ◌+◌, ◌^◌, ◌<◌, ◌≤◌, List, [], length, slice_index_or};
ghost use Rattle.arrayvec.specs.ArrayVec.{array_vec_len};
ghost use Rattle.bt_tree.specs.Limits.{max_block_count, max_height};
ghost use Rattle.bt_tree.specs.Peaks.{row_node, peaks_of, peak_count};

use crate::node_hash::{Hash32, NodeHash};
use arrayvec::ArrayVec;

/// The digests of the widest whole nodes over the nodes of a row that came so far, the leftmost first. There
/// is at most one for each layer of a tree, so 27 are enough for 2^26 leaves.
pub(crate) type Peaks = ArrayVec<Hash32, 27>;

/// Takes the digest of the row's next node, after the first `count`.
pub(crate) fn add<H: NodeHash>(hash: H, peaks: &mut Peaks, count: u32, digest: Hash32)
    requires room { count < max_block_count }
    requires size { array_vec_len peaks.old ≡ peak_count max_height count }
    ensures size { array_vec_len peaks.new ≡ peak_count max_height (count + 1) }
    ensures peaks { (row : ℕ → List ℕ) → peaks.old.items ≡ peaks_of H.digest row count → digest
        ≡ row count
        → peaks.new.items ≡ peaks_of H.digest row (count + 1) }
{
    let mut digest = digest;
    let mut rest = count;
    while rest % 2 == 1 {
        // The node is a right child, and the last peak is its sibling.
        match peaks.pop() {
            Some(left) => digest = hash.pair(&left, &digest),
            None => unreachable!(),
        }
        rest /= 2;
    }
    peaks.push(digest);
}

/// Takes the digests of the row's next nodes, after the first `count`.
pub(crate) fn add_all<H: NodeHash>(hash: H, peaks: &mut Peaks, count: u32, digests: &[Hash32])
    requires room { count + length digests.now ≤ max_block_count }
    requires size { array_vec_len peaks.old ≡ peak_count max_height count }
    ensures size { array_vec_len peaks.new ≡ peak_count max_height (count + length digests.now) }
    ensures peaks { (row : ℕ → List ℕ) → peaks.old.items ≡ peaks_of H.digest row count
        → ((i : ℕ) → i < length digests.now → slice_index_or digests.now i [] ≡ row (count + i))
        → peaks.new.items ≡ peaks_of H.digest row (count + length digests.now) }
{
    let mut count = count;
    for digest in digests {
        add(hash, peaks, count, *digest);
        count += 1;
    }
}

/// The digest of the node that lies `layers` layers above the first 2^layers nodes of the row. The row's nodes
/// past the first `count` all have the digest `padding`.
pub(crate) fn close<H: NodeHash>(
    hash: H,
    peaks: &[Hash32],
    count: u32,
    layers: u8,
    padding: Hash32,
) -> Hash32
    requires high { layers ≤ max_height }
    requires within { count ≤ 2 ^ layers }
    requires size { length peaks.now ≡ peak_count max_height count }
    ensures { (row : ℕ → List ℕ) → peaks.now ≡ peaks_of H.digest row count
        → ((i : ℕ) → count ≤ i → i < 2 ^ layers → row i ≡ padding) → result
        ≡ row_node H.digest row layers 0 }
{
    if count == 1 << layers {
        return peaks[0];
    }
    let mut left = peaks.len();
    let mut rest = count;
    let mut padding = padding;
    // The layer's first node that isn't whole.
    let mut open = padding;
    for _ in 0..layers {
        if rest % 2 == 1 {
            left -= 1;
            open = hash.pair(&peaks[left], &open);
        } else {
            open = hash.pair(&open, &padding);
        }
        padding = hash.pair(&padding, &padding);
        rest /= 2;
    }
    open
}
