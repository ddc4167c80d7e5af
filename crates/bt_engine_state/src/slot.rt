//! A file as an engine has it: the number of its tree, and the store of its blocks with its device.
ghost use Rattle.std.specs.Prelude.{◌≡◌, ◌<◌, Some, length, slice_get};
ghost use Rattle.bt_engine_state.specs.Parts.{file_of};

use bt_disk::Disk;
use bt_store::{BlockState, FileStore};
use bt_tree::NodeHash;

/// A file of the torrent.
#[derive(Drop)]
pub struct Slot<D: Disk + Drop, H: NodeHash> {
    /// The index of its tree. An empty file has none, and a 0 here.
    pub tree: u32,
    /// Its blocks and its device. An empty file has none.
    pub store: Option<FileStore<D, H>>,
}

impl<D: Disk + Drop, H: NodeHash> Slot<D, H> {
    /// How many blocks the file has.
    pub fn blocks(&self) -> u32
        ensures { result ≡ length (file_of self.now).states }
    {
        match &self.store {
            Some(store) => store.geometry().blocks(),
            None => 0,
        }
    }

    /// The state of a block; None where the file has no such block.
    pub fn state(&self, block: u32) -> Option<BlockState>
        ensures { result ≡ slice_get (file_of self.now).states block }
    {
        match &self.store {
            Some(store) => store.state(block),
            None => None,
        }
    }

    /// The state of one of the file's blocks.
    pub(crate) fn own_state(&self, block: u32) -> BlockState
        requires { block < length (file_of self.now).states }
        ensures { slice_get (file_of self.now).states block ≡ Some result }
    {
        let Some(state) = self.state(block) else {
            unreachable!();
        };
        state
    }
}
