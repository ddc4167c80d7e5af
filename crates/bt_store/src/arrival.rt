//! What becomes of a block that comes: whether it is written, and then is marked or waits for its leaf.
ghost use Rattle.std.specs.Prelude.{◌≡◌, ◌<◌, ◌*◌, ◌≢◌, Some, slice_get};
ghost use Rattle.std.specs.Bool.{OnTrue, OnFalse};
ghost use Rattle.bt_tree.specs.Limits.{full_block_length};
ghost use Rattle.bt_tree.specs.Blocks.{block_count};
ghost use Rattle.bt_disk.specs.Calls.{HasCalls};
ghost use Rattle.bt_store.specs.Arrival.{IsBlock, IsWrong, IsNotWrong, calls_of_put, states_after_put, PutIsDue};
ghost use Rattle.bt_store.specs.ArrivalSteps.{IsWritten};

use crate::block_states::BlockState;
use crate::error::StoreError;
use crate::file_store::FileStore;
use bt_disk::Disk;
use bt_sparse::SparseTree;
use bt_tree::{BLOCK_LEN, Hash32, NodeHash};

/// What became of a block that came.
#[derive(Clone, Copy, Debug, PartialEq, Eq)]
pub enum Put {
    /// It was there, waiting or marked. Nothing was written.
    Already,
    /// Its digest is not its leaf. Nothing was written.
    Wrong,
    /// Its digest is its leaf, and it was written.
    Marked,
    /// It was written, and its leaf is unknown.
    Waiting,
}

impl<D: Disk + Drop, H: NodeHash> FileStore<D, H> {
    /// Takes a block that came. It is written, by one call of the device, where it is missing and its
    /// digest is not known to be wrong.
    ///
    /// The refusals are Range, where the file has no such block or the block has another length, and
    /// Device; both leave all states as they were.
    pub fn put(&mut self, tree: &SparseTree<H>, block: u32, bytes: &[u8]) -> Result<Put, StoreError>
        requires { tree.now.file_length ≡ self.old.file_length }
        ensures why { PutIsDue H.digest tree.now block bytes.now self.old.states result }
        ensures calls { HasCalls D.conduct
            self.old.disk (calls_of_put block bytes.now result) self.new.disk }
        ensures states { self.new.states ≡ states_after_put block result self.old.states }
        ensures same_file { self.new.file_length ≡ self.old.file_length }
    {
        if !self.is_block(block, bytes) {
            return Err(StoreError::Range);
        }
        if !self.is_missing(block) {
            return Ok(Put::Already);
        }
        let leaf = tree.known(0, block);
        if is_wrong(self.hash, leaf, bytes) {
            return Ok(Put::Wrong);
        }
        self.write(block, bytes, leaf.is_some())
    }

    /// Writes a block, which is marked then where its leaf is known, and else waits.
    fn write(&mut self, block: u32, bytes: &[u8], is_known: bool) -> Result<Put, StoreError>
        requires { block < block_count self.old.file_length }
        ensures written { IsWritten is_known result }
        ensures calls { HasCalls D.conduct
            self.old.disk (calls_of_put block bytes.now result) self.new.disk }
        ensures states { self.new.states ≡ states_after_put block result self.old.states }
        ensures same_file { self.new.file_length ≡ self.old.file_length }
    {
        if let Err(_) = self.disk.write_at(offset_of(block), bytes) {
            return Err(StoreError::Device);
        }
        if is_known {
            self.states.set(block, BlockState::Marked);
            return Ok(Put::Marked);
        }
        self.states.set(block, BlockState::Waiting);
        Ok(Put::Waiting)
    }

    /// Whether the file has such a block of this length.
    fn is_block(&self, block: u32, bytes: &[u8]) -> bool
        ensures yes { OnTrue result (IsBlock self.now.file_length block bytes.now) }
        ensures no { OnFalse result (¬ IsBlock self.now.file_length block bytes.now) }
    {
        block < self.geometry.blocks() && bytes.len() == self.geometry.block_len(block)
    }

    /// Whether a block is missing.
    pub(crate) fn is_missing(&self, block: u32) -> bool
        ensures yes { OnTrue result (slice_get self.now.states block ≡ Some BlockState.Missing) }
        ensures no { OnFalse result (slice_get self.now.states block ≢ Some BlockState.Missing) }
    {
        self.states.get(block) == Some(BlockState::Missing)
    }
}

/// The byte of the device at which a block begins.
pub(crate) fn offset_of(block: u32) -> u64
    ensures { result ≡ full_block_length * block }
{
    BLOCK_LEN as u64 * block as u64
}

/// Whether a leaf is known, and is another than the digest of these bytes.
fn is_wrong<H: NodeHash>(hash: H, leaf: Option<Hash32>, bytes: &[u8]) -> bool
    ensures yes { OnTrue result (IsWrong H.digest leaf bytes.now) }
    ensures no { OnFalse result (IsNotWrong H.digest leaf bytes.now) }
{
    match leaf {
        Some(known) => hash.block(bytes) != known,
        None => false,
    }
}
