//! Reads of one block: a marked one is lent, and a missing one whose leaf is known becomes marked where its
//! bytes are right.
ghost use Rattle.std.specs.Prelude.{◌≡◌, ◌≢◌, ◌<◌, ◌≤◌, List, [], ◌∷◌, Some, IfErr, length, drop, slice_get};
ghost use Rattle.std.specs.Bool.{OnTrue, OnFalse};
ghost use Rattle.bt_tree.specs.Limits.{full_block_length};
ghost use Rattle.bt_tree.specs.Blocks.{block_count, block_length};
ghost use Rattle.bt_disk.specs.Calls.{HasCalls};
ghost use Rattle.bt_store.specs.BlockReads.{BlockRead, call_of};
ghost use Rattle.bt_store.specs.SingleBlockSteps.{ComesTo};
ghost use Rattle.bt_store.specs.Review.{is_marked_at};
ghost use Rattle.bt_store.specs.SingleBlock.{IsLent, IsLost, IsRestored};

use crate::arrival::offset_of;
use crate::batches::digest_slot;
use crate::block_states::BlockState;
use crate::error::{ReadError, StoreError};
use crate::file_store::FileStore;
use crate::review::{Verdict, verdict_of};
use bt_disk::Disk;
use bt_sparse::SparseTree;
use bt_tree::{BLOCK_LEN, NodeHash};

impl<D: Disk + Drop, H: NodeHash> FileStore<D, H> {
    /// Reads a marked block into the front of `out`, by one call of the device, and says how many bytes it
    /// has: `out` has room for them. It is lent only where its digest is its leaf.
    ///
    /// The refusals are NotMarked, also where there is no such block; Device, after which the block stays
    /// marked; and Damaged, where the bytes are fewer or their digest is not the leaf, after which the
    /// block is missing. Behind the block's length `out` stays as it was, and after NotMarked all of it
    /// does; after the other two nothing is said of its front.
    pub fn read(
        &mut self,
        tree: &SparseTree<H>,
        block: u32,
        out: &mut [u8],
    ) -> Result<usize, ReadError>
        requires geometry { tree.now.file_length ≡ self.old.file_length }
        requires room { block_length self.old.file_length block ≤ length out.old }
        ensures lent { (reads : List BlockRead) × IsLent D.conduct H.digest tree.now
            block out.new self.old reads result self.new }
        ensures rest { drop (block_length self.old.file_length block) out.new
            ≡ drop (block_length self.old.file_length block) out.old }
        ensures unread { IfErr result (λ error. error ≡ ReadError.NotMarked → out.new ≡ out.old) }
    {
        if !self.is_marked(block) {
            return Err(ReadError::NotMarked);
        }
        match read_block(&mut self.disk, self.hash, tree, block, out) {
            Verdict::Right => Ok(self.geometry.block_len(block)),
            Verdict::Wrong => {
                self.states.set(block, BlockState::Missing);
                Err(ReadError::Damaged)
            }
            Verdict::Fault => Err(ReadError::Device),
        }
    }

    /// Reads a missing block whose leaf is known, by one call of the device: it becomes marked where its
    /// digest is the leaf. The answer is whether the block is marked then; any other block is not read.
    ///
    /// The refusals are Range, where the file has no such block, and Device, after which the block is
    /// missing.
    pub fn restore(&mut self, tree: &SparseTree<H>, block: u32) -> Result<bool, StoreError>
        requires { tree.now.file_length ≡ self.old.file_length }
        ensures { (reads : List BlockRead) × IsRestored D.conduct H.digest tree.now
            block self.old reads result self.new }
    {
        if block >= self.geometry.blocks() {
            return Err(StoreError::Range);
        }
        if !self.is_missing(block) || tree.known(0, block).is_none() {
            return Ok(self.is_marked(block));
        }
        self.find(tree, block, &mut [0; BLOCK_LEN])
    }

    /// Reads a missing block whose leaf is known into a buffer. It becomes marked where its digest is the
    /// leaf, and the answer is whether it is.
    fn find(
        &mut self,
        tree: &SparseTree<H>,
        block: u32,
        buffer: &mut [u8],
    ) -> Result<bool, StoreError>
        requires geometry { tree.now.file_length ≡ self.old.file_length }
        requires inside { block < block_count tree.now.file_length }
        requires room { length buffer.old ≡ full_block_length }
        requires lost { IsLost H.digest tree.now block self.old.states }
        ensures { (reads : List BlockRead) × IsRestored D.conduct H.digest tree.now
            block self.old reads result self.new }
    {
        match read_block(&mut self.disk, self.hash, tree, block, buffer) {
            Verdict::Right => {
                self.states.set(block, BlockState::Marked);
                Ok(true)
            }
            Verdict::Wrong => Ok(false),
            Verdict::Fault => Err(StoreError::Device),
        }
    }

    /// Whether a block is marked.
    fn is_marked(&self, block: u32) -> bool
        ensures value { result ≡ is_marked_at self.now.states block }
        ensures yes { OnTrue result (slice_get self.now.states block ≡ Some BlockState.Marked) }
        ensures no { OnFalse result (slice_get self.now.states block ≢ Some BlockState.Marked) }
        ensures inside { OnTrue result (block < block_count self.now.file_length) }
    {
        self.states.get(block) == Some(BlockState::Marked)
    }
}

/// Reads a block into the front of a buffer, by one call of the device, and says what that comes to.
fn read_block<D: Disk, H: NodeHash>(
    disk: &mut D,
    hash: H,
    tree: &SparseTree<H>,
    block: u32,
    out: &mut [u8],
) -> Verdict
    requires inside { block < block_count tree.now.file_length }
    requires room { block_length tree.now.file_length block ≤ length out.old }
    ensures read { (read : BlockRead) × HasCalls D.conduct
        disk.old (call_of tree.now.file_length read ∷ []) disk.new
        × ComesTo H.digest tree.now block out.new read result }
    ensures rest { drop (block_length tree.now.file_length block) out.new
        ≡ drop (block_length tree.now.file_length block) out.old }
{
    let geometry = tree.geometry();
    let length = geometry.block_len(block);
    let Ok(count) = disk.read_at(offset_of(block), &mut out[..length]) else {
        return Verdict::Fault;
    };
    let found = digest_slot(hash, geometry, block, Some(count), &out[..length]);
    verdict_of(tree.known(0, block), found)
}
