//! The adoption of groups of two blocks or of four, as many as lie in eight blocks: they are read and
//! digested together, and any other group is left to `adopt`.
ghost use Rattle.std.specs.Prelude.{◌≡◌, ℕ, ◌+◌, ◌%◌, ◌^◌, ◌<◌, ◌≤◌, ◌⊎◌, List, IfOk, IfErr, IfSome, length};
ghost use Rattle.bt_tree.specs.Limits.{max_block_count, max_height};
ghost use Rattle.bt_tree.specs.Blocks.{block_count};
ghost use Rattle.bt_sparse.specs.SparseTree.{blocks_of};
ghost use Rattle.bt_sparse.specs.Anchor.{IsAnchor};
ghost use Rattle.bt_store.specs.BlockReads.{BlockRead};
ghost use Rattle.bt_store.specs.SmallGroups.{AreAdopted, StopsInTurn, with_group};
ghost use Rattle.bt_store.specs.SmallGroupsSteps.{IsBatch, IsBatchRead, ReadSomehow, AdoptsFound, AdoptsBatch, StopsBatch};

use crate::adoption::Adopted;
use crate::batches::{BATCH_BLOCKS, BATCH_LEN, BlockFound, digest_batch, read_batch};
use crate::file_store::FileStore;
use crate::groups::{Group, ReadTally, group_below, note_found, padding};
use bt_disk::Disk;
use bt_sparse::SparseTree;
use bt_tree::NodeHash;
use std::alloc::AllocError;

/// What `adopt_groups` did.
#[derive(Clone, Copy, Debug, PartialEq, Eq)]
pub struct AdoptedGroups {
    /// The block after the last group.
    pub next: u32,
    /// How many blocks of the groups were found right.
    pub marked: u32,
    /// How many reads failed.
    pub faults: u32,
}

impl AdoptedGroups {
    /// The sums with one more group.
    fn with(self, group: Adopted) -> AdoptedGroups
        requires marked { self.marked + group.marked < 2 ^ 32 }
        requires faults { self.faults + group.faults < 2 ^ 32 }
        ensures { result ≡ with_group self group }
    {
        AdoptedGroups {
            next: group.next,
            marked: self.marked + group.marked,
            faults: self.faults + group.faults,
        }
    }
}

/// Whole groups of two blocks or of four that lie next to each other.
#[derive(Clone, Copy)]
struct Batch {
    /// The layer of the nodes above them.
    anchor: u32,
    /// How many blocks they have together, at most eight.
    count: u32,
}

/// The small groups from a block on; none where its group is no such, or does not begin there.
fn groups_ahead<H: NodeHash>(tree: &SparseTree<H>, from: u32) -> Option<Batch>
    requires inside { from < blocks_of tree.now }
    ensures batch { IfSome result (λ batch. IsBatch tree.now from batch.anchor batch.count) }
    ensures some { IfSome result (λ batch. 0 < batch.count) }
    ensures limit { IfSome result (λ _. blocks_of tree.now ≤ max_block_count) }
{
    let anchor = tree.anchor(from);
    if anchor == 0 || anchor > 2 {
        return None;
    }
    let size = 1 << anchor;
    if from % size != 0 {
        return None;
    }
    let count = batch_below(tree, from, anchor, size);
    if count == 0 {
        return None;
    }
    Some(Batch { anchor, count })
}

/// How many blocks from one on lie below nodes of one layer, as far as eight, and in whole groups.
fn batch_below<H: NodeHash>(tree: &SparseTree<H>, from: u32, anchor: u32, size: u32) -> u32
    requires inside { from < blocks_of tree.now }
    requires some { 0 < size }
    ensures few { result ≤ 8 }
    ensures inside { from + result ≤ blocks_of tree.now }
    ensures nearest { (j : ℕ) → j < result → IsAnchor tree.now (from + j) anchor }
    ensures whole { (size ≡ 2) ⊎ (size ≡ 4)
        → (from + result ≡ blocks_of tree.now) ⊎ (result % size ≡ 0) }
    ensures limit { blocks_of tree.now ≤ max_block_count }
{
    let rest = tree.geometry().blocks() - from;
    for count in 0..8u32 {
        if count == rest {
            return count;
        }
        if tree.anchor(from + count) != anchor {
            return count - count % size;
        }
    }
    8
}

impl<D: Disk + Drop, H: NodeHash> FileStore<D, H> {
    /// Adopts what the device has of one group or of several that lie next to each other, from that of block
    /// `from` on, as calls of `adopt` one after the other do, by the same calls of the device.
    ///
    /// Of groups of two blocks or of four it takes as many as lie in eight blocks: all are read, and digested
    /// together, before the first is claimed. Of others it takes one.
    ///
    /// The one error is out of memory. The groups before the one that it came at are adopted; this one and
    /// those after it may have been read.
    pub fn adopt_groups(
        &mut self,
        tree: &mut SparseTree<H>,
        from: u32,
    ) -> Result<AdoptedGroups, AllocError>
        requires geometry { tree.old.file_length ≡ self.old.file_length }
        requires inside { from < block_count self.old.file_length }
        ensures ok { IfOk result (λ adopted. (reads : List BlockRead) × AreAdopted D.conduct
            H.digest tree.old from self.old reads adopted tree.new self.new) }
        ensures stop { IfErr result (λ _. (reads : List BlockRead) × StopsInTurn D.conduct
            H.digest tree.old from self.old reads tree.new self.new) }
        ensures onward { IfOk result (λ adopted. from < adopted.next) }
        ensures within { IfOk result (λ adopted. adopted.next ≤ block_count self.old.file_length) }
    {
        match groups_ahead(tree, from) {
            Some(batch) => self.adopt_batch(tree, from, batch),
            None => self.adopt_alone(tree, from),
        }
    }

    /// Adopts one group.
    fn adopt_alone(
        &mut self,
        tree: &mut SparseTree<H>,
        from: u32,
    ) -> Result<AdoptedGroups, AllocError>
        requires geometry { tree.old.file_length ≡ self.old.file_length }
        requires inside { from < block_count self.old.file_length }
        ensures ok { IfOk result (λ adopted. (reads : List BlockRead) × AreAdopted D.conduct
            H.digest tree.old from self.old reads adopted tree.new self.new) }
        ensures stop { IfErr result (λ _. (reads : List BlockRead) × StopsInTurn D.conduct
            H.digest tree.old from self.old reads tree.new self.new) }
        ensures onward { IfOk result (λ adopted. from < adopted.next) }
        ensures within { IfOk result (λ adopted. adopted.next ≤ block_count self.old.file_length) }
    {
        let Ok(group) = self.adopt(tree, from) else {
            return Err(AllocError);
        };
        Ok(AdoptedGroups {
            next: group.next,
            marked: group.marked,
            faults: group.faults,
        })
    }

    /// Adopts small groups.
    fn adopt_batch(
        &mut self,
        tree: &mut SparseTree<H>,
        from: u32,
        batch: Batch,
    ) -> Result<AdoptedGroups, AllocError>
        requires geometry { tree.old.file_length ≡ self.old.file_length }
        requires batch { IsBatch tree.old from batch.anchor batch.count }
        requires some { 0 < batch.count }
        requires limit { blocks_of tree.old ≤ max_block_count }
        ensures ok { IfOk result (λ adopted. (reads : List BlockRead) × AreAdopted D.conduct
            H.digest tree.old from self.old reads adopted tree.new self.new) }
        ensures stop { IfErr result (λ _. (reads : List BlockRead) × StopsInTurn D.conduct
            H.digest tree.old from self.old reads tree.new self.new) }
        ensures onward { IfOk result (λ adopted. from < adopted.next) }
        ensures within { IfOk result (λ adopted. adopted.next ≤ block_count self.old.file_length) }
    {
        let blocks_found = self.find_batch(from, batch.count as usize);
        self.adopt_found(tree, from, batch, &blocks_found)
    }

    /// What the reads of blocks that lie next to each other find, at most eight.
    fn find_batch(&mut self, first: u32, count: usize) -> [BlockFound; BATCH_BLOCKS]
        requires few { count ≤ 8 }
        requires inside { first + count ≤ block_count self.old.file_length }
        ensures read { IsBatchRead D.conduct H.digest
            self.old.file_length first result count self.old.disk self.new.disk }
        ensures others { self.new ≡ record self.old { disk = self.new.disk } }
    {
        let mut buffer = [0; BATCH_LEN];
        let lengths = read_batch(&mut self.disk, self.geometry, first, count, &mut buffer);
        digest_batch(self.hash, self.geometry, first, count, &lengths, &buffer)
    }

    /// Adopts small groups, by what the reads of their blocks found.
    fn adopt_found(
        &mut self,
        tree: &mut SparseTree<H>,
        from: u32,
        batch: Batch,
        blocks_found: &[BlockFound; BATCH_BLOCKS],
    ) -> Result<AdoptedGroups, AllocError>
        requires geometry { tree.old.file_length ≡ self.old.file_length }
        requires batch { IsBatch tree.old from batch.anchor batch.count }
        requires limit { blocks_of tree.old ≤ max_block_count }
        requires read { ReadSomehow H.digest self.old.file_length from blocks_found.now
            batch.count }
        ensures ok { IfOk result (λ adopted. AdoptsBatch H.digest self.old.file_length
            tree.old from batch.count self.old.states blocks_found.now adopted tree.new
            self.new.states) }
        ensures stop { IfErr result (λ _. StopsBatch H.digest self.old.file_length
            tree.old from batch.count self.old.states blocks_found.now tree.new self.new.states) }
        ensures next { IfOk result (λ adopted. adopted.next ≡ from + batch.count) }
        ensures others { self.new ≡ record self.old { states = self.new.states } }
    {
        let end = from + batch.count;
        let mut total = AdoptedGroups {
            next: from,
            marked: 0,
            faults: 0,
        };
        while total.next < end {
            let group = group_below(tree, total.next, batch.anchor);
            let done = (total.next - from) as usize;
            let found = &blocks_found[done..];
            let Ok(adopted) = self.adopt_read(tree, group, batch.anchor, found) else {
                return Err(AllocError);
            };
            total = total.with(adopted);
        }
        Ok(total)
    }

    /// Adopts a group, by what the reads of its blocks found, of which a list has those first.
    fn adopt_read(
        &mut self,
        tree: &mut SparseTree<H>,
        group: Group,
        anchor: u32,
        blocks_found: &[BlockFound],
    ) -> Result<Adopted, AllocError>
        requires geometry { tree.old.file_length ≡ self.old.file_length }
        requires inside { group.first + group.count ≤ block_count self.old.file_length }
        requires limit { block_count self.old.file_length ≤ max_block_count }
        requires layer { anchor ≤ max_height }
        requires fits { group.count ≤ 2 ^ anchor }
        requires found { group.count ≤ length blocks_found.now }
        ensures ok { IfOk result
            (λ adopted. AdoptsFound H.digest self.old.file_length tree.old anchor
            group.first group.count self.old.states blocks_found.now adopted tree.new
            self.new.states) }
        ensures next { IfOk result (λ adopted. adopted.next ≡ group.first + group.count) }
        ensures marked { IfOk result (λ adopted. adopted.marked ≤ group.count) }
        ensures faults { IfOk result (λ adopted. adopted.faults ≤ group.count) }
        ensures others { self.new ≡ record self.old { states = self.new.states } }
        ensures tree { IfErr result (λ _. tree.new ≡ tree.old) }
        ensures states { IfErr result (λ _. self.new ≡ self.old) }
    {
        let Ok(mut leaves) = padding(self.alloc, self.hash, anchor) else {
            return Err(AllocError);
        };
        let none = ReadTally {
            whole: 0,
            faults: 0,
        };
        let count = group.count as usize;
        let reads = note_found(leaves.as_mut_slice(), 0, blocks_found, count, none);
        self.claim_group(tree, group, anchor, leaves, reads)
    }
}
