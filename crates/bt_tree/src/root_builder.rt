//! The digest of a file's root, or of another node, built from the blocks below it, which come in order.
ghost use Rattle.std.specs.Prelude.{◌≡◌, ℕ, ◌+◌, ◌-◌, ◌*◌, ◌<◌, ◌≤◌, ◌↔◌, List, length, IsTrue, IsOk, IfOk, OnOk, OnErr};
ghost use Rattle.arrayvec.specs.ArrayVec.{array_vec_len};
ghost use Rattle.bt_tree.specs.Limits.{full_block_length, max_block_count, max_height};
ghost use Rattle.bt_tree.specs.Blocks.{block_count, HasRun};
ghost use Rattle.bt_tree.specs.TreeShape.{height_of, CoversBlock};
ghost use Rattle.bt_tree.specs.Tree.{node_digest};
ghost use Rattle.bt_tree.specs.Peaks.{peak_count};
ghost use Rattle.bt_tree.specs.RootBuilder.{BuilderState, BuildsFrom, IsNextRun, TakesBlocks, IsAsFar, IsComplete, IsBlocksOf, next_block, initial_state, file_peaks};

use crate::node_hash::{Hash32, NodeHash};
use crate::peaks::{self, Peaks};
use crate::tree_shape::{BLOCK_LEN, Geometry};
use std::marker::Model;
use thiserror::Error;

/// A run of bytes that isn't made of the next whole blocks, or a node some of whose blocks have not come.
#[derive(Clone, Copy, Debug, PartialEq, Eq, Error)]
#[error("the bytes are not the blocks below the node")]
pub struct Shape;

/// Builds the digest of one node of a file's tree from the blocks below it, which are pushed in order.
///
/// It keeps at most 27 digests, and no bytes of the file.
#[derive(Drop)]
pub struct RootBuilder<H: NodeHash> {
    hash: H,
    geometry: Geometry,
    layer: u8,
    index: u32,
    /// How many blocks lie below the node.
    blocks: u32,
    /// How many of them came.
    count: u32,
    peaks: Peaks,
}

impl<H: NodeHash> Model for RootBuilder<H> {
    ghost use Rattle.bt_tree.specs.RootBuilder.{BuilderState, IsSound, state_of};

    ghost Value = { BuilderState };

    ghost view = { λ b. state_of b.geometry b.layer b.index b.count b.peaks.items };

    ghost invariant = { λ b. IsSound (state_of b.geometry b.layer b.index b.count b.peaks.items)
        b.blocks };
}

impl<H: NodeHash> RootBuilder<H> {
    /// A builder of the root of a file's tree.
    pub fn new(hash: H, geometry: Geometry) -> Self
        ensures state { result ≡ initial_state geometry (height_of (block_count geometry)) 0 }
        ensures from { (file : List ℕ) → length file ≡ geometry → BuildsFrom H.digest result file }
    {
        RootBuilder::for_node(hash, geometry, geometry.height(), 0)
    }

    /// A builder of node `index` of a layer, which covers a block: the layer is at most the height of the
    /// tree, and the index is below `real(layer)`.
    pub fn for_node(hash: H, geometry: Geometry, layer: u8, index: u32) -> Self
        requires { CoversBlock (block_count geometry) layer index }
        ensures state { result ≡ initial_state geometry layer index }
        ensures from { (file : List ℕ) → length file ≡ geometry → BuildsFrom H.digest result file }
    {
        let from_first = geometry.blocks() - (index << layer);
        RootBuilder {
            hash,
            geometry,
            layer,
            index,
            blocks: from_first.min(1 << layer),
            count: 0,
            peaks: Peaks::new(),
        }
    }

    /// Takes one or more next blocks below the node, each of 16,384 bytes but for the file's last.
    ///
    /// Errors: `Shape` for a run of no bytes, for one whose last byte is not the last of its block, and for
    /// one of more bytes than the node still lacks; nothing of the run is then kept. However the bytes are
    /// cut into runs, the builder ends up the same.
    pub fn push(&mut self, run: &[u8]) -> Result<(), Shape>
        ensures variant { IsOk result ↔ IsNextRun self.old (length run.now) }
        ensures state { OnOk result (TakesBlocks self.old self.new (block_count (length run.now))) }
        ensures from { OnOk result ((file : List ℕ) → BuildsFrom H.digest self.old file
            → HasRun file (full_block_length * next_block self.old) run.now
            → BuildsFrom H.digest self.new file) }

        // However the bytes were cut into runs, a builder that took as many blocks of the same file is the
        // same.
        ensures cut { OnOk result ((file : List ℕ) (other : BuilderState)
            → BuildsFrom H.digest self.new file
            → BuildsFrom H.digest other file → IsAsFar other self.new → other ≡ self.new) }
        ensures err { OnErr result (self.new ≡ self.old) }
    {
        if !self.is_next(run.len() as u64) {
            return Err(Shape);
        }
        push_blocks(self.hash, &mut self.peaks, self.count, run);
        self.count += run.len().div_ceil(BLOCK_LEN) as u32;
        Ok(())
    }

    /// The node's digest, once every block below it came. Errors: `Shape` before that.
    pub fn finish(&self) -> Result<Hash32, Shape>
        ensures variant { IsOk result ↔ IsComplete self.now }
        ensures value { IfOk result (λ digest. (file : List ℕ) → BuildsFrom H.digest self.now file
            → digest ≡ node_digest H.digest file self.now.layer self.now.index) }
    {
        if self.count < self.blocks {
            return Err(Shape);
        }
        Ok(peaks::close(
            self.hash,
            self.peaks.as_slice(),
            self.count,
            self.layer,
            [0; 32],
        ))
    }

    /// Whether a run of `len` bytes is made of next blocks below the node.
    fn is_next(&self, len: u64) -> bool
        ensures { IsTrue result ↔ IsNextRun self.now len }
    {
        let length = self.geometry.length();
        let first = (self.index as u64) << self.layer;
        let start = BLOCK_LEN as u64 * (first + self.count as u64);
        let end = length.min(BLOCK_LEN as u64 * (first + (1 << self.layer)));
        let rest = end.saturating_sub(start);
        len > 0 && len <= rest && (len % BLOCK_LEN as u64 == 0 || start + len == length)
    }
}

/// Takes the blocks of a run, after the first `count`: eight at a time as long as eight whole ones are left.
fn push_blocks<H: NodeHash>(hash: H, peaks: &mut Peaks, count: u32, run: &[u8])
    requires room { count + block_count (length run.now) ≤ max_block_count }
    requires size { array_vec_len peaks.old ≡ peak_count max_height count }
    ensures size { array_vec_len peaks.new ≡ peak_count max_height
        (count + block_count (length run.now)) }
    ensures peaks { (file : List ℕ) (first : ℕ)
        → peaks.old.items ≡ file_peaks H.digest file first count
        → IsBlocksOf file (first + count) run.now
        → peaks.new.items ≡ file_peaks H.digest file first (count + block_count (length run.now)) }
{
    let mut count = count;
    let mut rest = run;
    'eights: while rest.len() >= 8 * BLOCK_LEN {
        let (eight, after) = rest.split_at(8 * BLOCK_LEN);
        peaks::add_all(hash, peaks, count, &hash.blocks8(eight));
        count += 8;
        rest = after;
    }
    push_each(hash, peaks, count, rest);
}

/// Takes the blocks of a run, after the first `count`, one at a time.
fn push_each<H: NodeHash>(hash: H, peaks: &mut Peaks, count: u32, run: &[u8])
    requires room { count + block_count (length run.now) ≤ max_block_count }
    requires size { array_vec_len peaks.old ≡ peak_count max_height count }
    ensures size { array_vec_len peaks.new ≡ peak_count max_height
        (count + block_count (length run.now)) }
    ensures peaks { (file : List ℕ) (first : ℕ)
        → peaks.old.items ≡ file_peaks H.digest file first count
        → IsBlocksOf file (first + count) run.now
        → peaks.new.items ≡ file_peaks H.digest file first (count + block_count (length run.now)) }
{
    let mut count = count;
    let mut rest = run;
    while !rest.is_empty() {
        let (block, after) = rest.split_at(rest.len().min(BLOCK_LEN));
        peaks::add(hash, peaks, count, hash.block(block));
        count += 1;
        rest = after;
    }
}
