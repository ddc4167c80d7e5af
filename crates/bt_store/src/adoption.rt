//! The adoption of what a device already has, a group of blocks a call: leaves that are known judge the
//! blocks, and where the leaves are unknown, the blocks' digests are claimed of the tree.
ghost use Rattle.std.specs.Prelude.{◌≡◌, ◌+◌, ◌<◌, ◌≤◌, List, true, IfOk, IfErr, IsSome, None, length, replicate};
ghost use Rattle.bt_tree.specs.Limits.{max_block_count, max_height};
ghost use Rattle.bt_tree.specs.Blocks.{block_count};
ghost use Rattle.bt_tree.specs.Tree.{padding_digest};
ghost use Rattle.bt_sparse.specs.SparseTree.{blocks_of, value_at};
ghost use Rattle.bt_sparse.specs.Anchor.{IsAnchor};
ghost use Rattle.bt_store.specs.BlockReads.{BlockRead};
ghost use Rattle.bt_store.specs.Adoption.{IsAdopted, StopsAdopting};
ghost use Rattle.bt_store.specs.AdoptionSteps.{AdoptsGroup};
ghost use Rattle.bt_store.specs.GroupsSteps.{IsGroupRead};

use crate::batches::BATCH_LEN;
use crate::file_store::FileStore;
use crate::groups::{
    Group, ReadTally, claim_leaves, group_below, known_batch, mark_group, padding, read_group,
};
use bt_disk::Disk;
use bt_sparse::SparseTree;
use bt_tree::{Hash32, NodeHash};
use std::alloc::AllocError;

/// What `adopt` did.
#[derive(Clone, Copy, Debug, PartialEq, Eq)]
pub struct Adopted {
    /// The block after the group.
    pub next: u32,
    /// The layer of the node whose blocks were claimed together; 0 where their leaves were known, and where
    /// a read failed.
    pub anchor: u32,
    /// How many blocks of the group were found right.
    pub marked: u32,
    /// How many reads failed.
    pub faults: u32,
}

impl<D: Disk + Drop, H: NodeHash> FileStore<D, H> {
    /// Adopts what the device has of the group of block `from`, by one read for each of its blocks.
    ///
    /// Where the leaf is known, the group is that block and those after it whose leaves are known, at most
    /// eight: each becomes marked or missing by its digest, and stays as it is where its read fails. Else
    /// the group is all blocks below the nearest node that is held: their digests, padded, are one claim,
    /// and where the tree accepts it all become marked. Where it does not, or a read failed or gave too few
    /// bytes, nothing changes.
    ///
    /// The one error is out of memory, and comes only where the leaf is unknown. It changes nothing, though
    /// the group may have been read.
    pub fn adopt(&mut self, tree: &mut SparseTree<H>, from: u32) -> Result<Adopted, AllocError>
        requires geometry { tree.old.file_length ≡ self.old.file_length }
        requires inside { from ≤ block_count self.old.file_length }
        ensures ok { IfOk result (λ adopted. (reads : List BlockRead) × IsAdopted D.conduct
            H.digest tree.old from self.old reads adopted tree.new self.new) }
        ensures stop { IfErr result (λ _. (reads : List BlockRead) × StopsAdopting D.conduct
            H.digest tree.old from self.old reads self.new) }
        ensures tree { IfErr result (λ _. tree.new ≡ tree.old) }
        ensures unknown { IfErr result (λ _. value_at H.digest tree.old 0 from ≡ None) }
        ensures onward { from < block_count self.old.file_length
            → IfOk result (λ adopted. from < adopted.next) }
        ensures within { IfOk result (λ adopted. adopted.next ≤ block_count self.old.file_length) }
    {
        if from == self.geometry.blocks() {
            return Ok(Adopted {
                next: from,
                anchor: 0,
                marked: 0,
                faults: 0,
            });
        }
        let anchor = tree.anchor(from);
        if anchor == 0 {
            return Ok(self.adopt_known(tree, from));
        }
        self.adopt_unknown(tree, from, anchor)
    }

    /// Adopts blocks whose leaves are known.
    fn adopt_known(&mut self, tree: &SparseTree<H>, from: u32) -> Adopted
        requires geometry { tree.now.file_length ≡ self.old.file_length }
        requires inside { from < blocks_of tree.now }
        requires known { IsSome (value_at H.digest tree.now 0 from) }
        ensures { (reads : List BlockRead) × IsAdopted D.conduct
            H.digest tree.now from self.old reads result tree.now self.new }
    {
        let count = known_batch(tree, from);
        let tally = self.judge_blocks(tree, from, count as usize, true);
        Adopted {
            next: from + count,
            anchor: 0,
            marked: tally.right,
            faults: tally.faults,
        }
    }

    /// Adopts the blocks below the nearest node that is held.
    fn adopt_unknown(
        &mut self,
        tree: &mut SparseTree<H>,
        from: u32,
        anchor: u32,
    ) -> Result<Adopted, AllocError>
        requires geometry { tree.old.file_length ≡ self.old.file_length }
        requires inside { from < blocks_of tree.old }
        requires anchor { IsAnchor tree.old from anchor }
        requires above { 0 < anchor }
        requires limit { anchor ≤ max_height }
        ensures ok { IfOk result (λ adopted. (reads : List BlockRead) × IsAdopted D.conduct
            H.digest tree.old from self.old reads adopted tree.new self.new) }
        ensures stop { IfErr result (λ _. (reads : List BlockRead) × StopsAdopting D.conduct
            H.digest tree.old from self.old reads self.new) }
        ensures tree { IfErr result (λ _. tree.new ≡ tree.old) }
    {
        let group = group_below(tree, from, anchor);
        let Ok(mut leaves) = padding(self.alloc, self.hash, anchor) else {
            return Err(AllocError);
        };
        let reads = self.read_group(group.first, group.count, leaves.as_mut_slice());
        self.claim_group(tree, group, anchor, leaves, reads)
    }

    /// Claims the digests of a group's blocks, and marks these where the tree accepts the claim; nothing
    /// changes where it does not, or where a read failed or gave too few bytes.
    pub(crate) fn claim_group(
        &mut self,
        tree: &mut SparseTree<H>,
        group: Group,
        anchor: u32,
        leaves: Vec<Hash32>,
        reads: ReadTally,
    ) -> Result<Adopted, AllocError>
        requires geometry { tree.old.file_length ≡ self.old.file_length }
        requires inside { group.first + group.count ≤ block_count self.old.file_length }
        requires limit { block_count self.old.file_length ≤ max_block_count }
        ensures ok { IfOk result
            (λ adopted. AdoptsGroup H.digest self.old.file_length tree.old anchor
            group.first group.count self.old.states leaves.items reads adopted tree.new
            self.new.states) }
        ensures next { IfOk result (λ adopted. adopted.next ≡ group.first + group.count) }
        ensures marked { IfOk result (λ adopted. adopted.marked ≤ group.count) }
        ensures faults { IfOk result (λ adopted. adopted.faults ≡ reads.faults) }
        ensures others { self.new ≡ record self.old { states = self.new.states } }
        ensures tree { IfErr result (λ _. tree.new ≡ tree.old) }
        ensures states { IfErr result (λ _. self.new ≡ self.old) }
    {
        let Group { first, count } = group;
        let unchanged = Adopted {
            next: first + count,
            anchor,
            marked: 0,
            faults: reads.faults,
        };
        if reads.faults > 0 {
            return Ok(Adopted {
                anchor: 0,
                ..unchanged
            });
        }
        if reads.whole < count {
            return Ok(unchanged);
        }
        let Ok(is_accepted) = claim_leaves(self.alloc, tree, first, leaves) else {
            return Err(AllocError);
        };
        if !is_accepted {
            return Ok(unchanged);
        }
        mark_group(&mut self.states, first, count);
        Ok(Adopted {
            marked: count,
            ..unchanged
        })
    }

    /// Reads blocks that lie next to each other, and puts the digests of whole ones in place of the padding.
    fn read_group(&mut self, first: u32, count: u32, digests: &mut [Hash32]) -> ReadTally
        requires inside { first + count ≤ block_count self.old.file_length }
        requires padded { digests.old ≡ replicate (length digests.old) (padding_digest H.digest 0) }
        requires fits { count ≤ length digests.old }
        ensures read { (reads : List BlockRead) × IsGroupRead D.conduct H.digest
            self.old.file_length first count (length digests.old)
            self.old.disk reads result self.new.disk digests.new }
        ensures others { self.new ≡ record self.old { disk = self.new.disk } }
    {
        let mut buffer = [0; BATCH_LEN];
        read_group(
            &mut self.disk,
            self.hash,
            self.geometry,
            first,
            count,
            digests,
            &mut buffer,
        )
    }
}
