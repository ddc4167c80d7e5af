//! The steps in which a group of blocks is adopted: which blocks it has, how they are read, how their leaves
//! are claimed of the tree, and how they are marked.
ghost use Rattle.std.specs.Prelude.{◌≡◌, ◌+◌, ◌-◌, ◌*◌, ◌^◌, ◌<◌, ◌≤◌, ◌≢◌, List, IsSome, IfOk, OnErr, length, replicate};
ghost use Rattle.std.specs.Bool.{OnTrue, OnFalse};
ghost use Rattle.bt_tree.specs.Limits.{full_block_length, max_block_count, max_height};
ghost use Rattle.bt_tree.specs.Blocks.{block_count};
ghost use Rattle.bt_tree.specs.Tree.{padding_digest};
ghost use Rattle.bt_sparse.specs.SparseTree.{blocks_of, value_at};
ghost use Rattle.bt_sparse.specs.Acceptance.{Accepts, IsRefused};
ghost use Rattle.bt_sparse.specs.declared.claim.ProofError.{ProofError};
ghost use Rattle.bt_sparse.specs.Anchor.{IsAnchor};
ghost use Rattle.bt_store.specs.BlockReads.{BlockRead};
ghost use Rattle.bt_store.specs.Adoption.{IsKnownGroup, IsUnknownGroup, leaf_claim, marked_group};
ghost use Rattle.bt_store.specs.GroupsSteps.{noted, counted, noted_found, counted_found, IsGroupRead};

use crate::batches::{BlockFound, digest_batch, read_batch};
use crate::block_states::{BlockState, BlockStates};
use bt_disk::Disk;
use bt_sparse::{Claim, Digests, ProofError, SparseTree};
use bt_tree::{Geometry, Hash32, NodeHash, pad};
use std::alloc::{AllocError, Global};

/// How many reads of a group gave a whole block, and how many failed.
#[derive(Clone, Copy)]
pub(crate) struct ReadTally {
    pub(crate) whole: u32,
    pub(crate) faults: u32,
}

impl ReadTally {
    /// The counts with one more read.
    fn with(self, found: BlockFound) -> ReadTally
        requires whole { self.whole + 1 < 2 ^ 32 }
        requires faults { self.faults + 1 < 2 ^ 32 }
        ensures value { result ≡ counted found self }
        ensures whole { result.whole ≤ self.whole + 1 }
        ensures faults { result.faults ≤ self.faults + 1 }
    {
        match found {
            BlockFound::Whole(_) => ReadTally {
                whole: self.whole + 1,
                ..self
            },
            BlockFound::Short => self,
            BlockFound::Failed => ReadTally {
                faults: self.faults + 1,
                ..self
            },
        }
    }
}

/// How many blocks from one on have leaves that are known, as far as eight.
pub(crate) fn known_batch<H: NodeHash>(tree: &SparseTree<H>, from: u32) -> u32
    requires inside { from < blocks_of tree.now }
    requires known { IsSome (value_at H.digest tree.now 0 from) }
    ensures group { IsKnownGroup H.digest tree.now from result }
    ensures limit { blocks_of tree.now ≤ max_block_count }
{
    let rest = tree.geometry().blocks() - from;
    for count in 1..8u32 {
        if count >= rest || tree.known(0, from + count).is_none() {
            return count;
        }
    }
    8
}

/// Blocks of a file that lie next to each other.
#[derive(Clone, Copy)]
pub struct Group {
    /// The number of the first block in its file.
    pub first: u32,
    /// How many blocks these are.
    pub count: u32,
}

/// The group of a block whose leaf is not known, which `FileStore::adopt` takes in whole: the blocks below
/// the nearest node above that leaf that is held. The node lies in layer `anchor`, as `SparseTree::anchor`
/// tells.
pub fn group_below<H: NodeHash>(tree: &SparseTree<H>, from: u32, anchor: u32) -> Group
    requires inside { from < blocks_of tree.now }
    requires nearest { IsAnchor tree.now from anchor }
    requires above { 0 < anchor }
    requires limit { anchor ≤ max_height }
    ensures group { IsUnknownGroup tree.now from anchor result.first result.count }
    ensures inside { result.first + result.count ≤ blocks_of tree.now }
    ensures few { result.count ≤ 2 ^ anchor }
    ensures limit { blocks_of tree.now ≤ max_block_count }
{
    let first = (from >> anchor) << anchor;
    let rest = tree.geometry().blocks() - first;
    Group {
        first,
        count: rest.min(1 << anchor),
    }
}

/// As many padding leaves as lie below a node of this layer.
pub(crate) fn padding<H: NodeHash>(
    alloc: Global,
    hash: H,
    layer: u32,
) -> Result<Vec<Hash32>, AllocError>
    requires { layer ≤ max_height }
    ensures { IfOk result (λ leaves. leaves.items ≡ replicate (2 ^ layer)
        (padding_digest H.digest 0)) }
{
    let leaf = pad(hash, 0);
    let count = 1u32 << layer;
    let mut leaves = Vec::with_capacity(alloc, count as usize)?;
    'leaves: for _ in 0..count {
        leaves.push(leaf)?;
    }
    Ok(leaves)
}

/// Claims leaves that lie next to each other, from the first on. The answer is whether the tree accepted
/// them; if not, it is as it was.
pub(crate) fn claim_leaves<H: NodeHash>(
    alloc: Global,
    tree: &mut SparseTree<H>,
    first: u32,
    leaves: Vec<Hash32>,
) -> Result<bool, AllocError>
    ensures accepted { IfOk result (λ is_accepted. OnTrue is_accepted
        (Accepts H.digest tree.old (leaf_claim first leaves.items) tree.new)) }
    ensures refused { IfOk result (λ is_accepted. OnFalse is_accepted ((error : ProofError)
        × IsRefused H.digest tree.old (leaf_claim first leaves.items) error
        × (error ≢ ProofError.OutOfMemory))) }
    ensures unchanged { IfOk result (λ is_accepted. OnFalse is_accepted (tree.new ≡ tree.old)) }
    ensures err { OnErr result (tree.new ≡ tree.old) }
{
    let claim = Claim {
        base: 0,
        index: first,
        run: Digests::new(leaves),
        uncles: Digests::new(Vec::new(alloc)),
    };
    match tree.accept(&claim) {
        Ok(_) => Ok(true),
        Err(ProofError::OutOfMemory) => Err(AllocError),
        Err(_) => Ok(false),
    }
}

/// Marks blocks that lie next to each other.
pub(crate) fn mark_group(states: &mut BlockStates, first: u32, count: u32)
    requires inside { first + count ≤ length states.old }
    requires limit { length states.old ≤ max_block_count }
    ensures value { states.new ≡ marked_group first count states.old }
    ensures size { length states.new ≡ length states.old }
{
    for j in 0..count {
        states.set(first + j, BlockState::Marked);
    }
}

/// Puts the digest of a whole block into a list.
fn note(digests: &mut [Hash32], i: usize, found: BlockFound)
    requires { i < length digests.old }
    ensures { digests.new ≡ noted i found digests.old }
{
    match found {
        BlockFound::Whole(digest) => digests[i] = digest,
        BlockFound::Short => {}
        BlockFound::Failed => {}
    }
}

/// Puts the digests of whole blocks into a list, from a place on, and counts what the reads found.
pub(crate) fn note_found(
    digests: &mut [Hash32],
    at: usize,
    blocks_found: &[BlockFound],
    count: usize,
    tally: ReadTally,
) -> ReadTally
    requires few { count ≤ length blocks_found.now }
    requires inside { at + count ≤ length digests.old }
    requires whole { tally.whole + count + 1 < 2 ^ 32 }
    requires faults { tally.faults + count + 1 < 2 ^ 32 }
    ensures digests { digests.new ≡ noted_found at blocks_found.now count digests.old }
    ensures tally { result ≡ counted_found blocks_found.now count tally }
    ensures faults { result.faults ≤ tally.faults + count }
{
    let mut tally = tally;
    for j in 0..count {
        note(digests, at + j, blocks_found[j]);
        tally = tally.with(blocks_found[j]);
    }
    tally
}

/// Reads blocks that lie next to each other, eight at a time, and puts the digests of whole ones in place
/// of the padding.
pub(crate) fn read_group<D: Disk, H: NodeHash>(
    disk: &mut D,
    hash: H,
    geometry: Geometry,
    first: u32,
    count: u32,
    digests: &mut [Hash32],
    buffer: &mut [u8],
) -> ReadTally
    requires inside { first + count ≤ block_count geometry }
    requires padded { digests.old ≡ replicate (length digests.old) (padding_digest H.digest 0) }
    requires fits { count ≤ length digests.old }
    requires room { length buffer.old ≡ 8 * full_block_length }
    ensures { (reads : List BlockRead) × IsGroupRead D.conduct H.digest geometry
        first count (length digests.old) disk.old reads result disk.new digests.new }
{
    let mut tally = ReadTally {
        whole: 0,
        faults: 0,
    };
    let mut done = 0;
    while done < count {
        let batch = (count - done).min(8);
        let block = first + done;
        let lengths = read_batch(disk, geometry, block, batch as usize, buffer);
        let blocks_found = digest_batch(hash, geometry, block, batch as usize, &lengths, buffer);
        tally = note_found(digests, done as usize, &blocks_found, batch as usize, tally);
        done += batch;
    }
    tally
}
