//! The store of one file's blocks on a device: how it is made, what it knows, and its calls that read and
//! write no block.
ghost use Rattle.std.specs.Prelude.{◌≡◌, ◌↔◌, ◌∷◌, [], IsTrue, IfOk, IfErr, length, slice_get};
ghost use Rattle.std.specs.List.{All, count_by};
ghost use Rattle.bt_tree.specs.Blocks.{block_count};
ghost use Rattle.bt_disk.specs.Calls.{HasCalls, sync_call};
ghost use Rattle.bt_store.specs.BlockStates.{is_marked, is_waiting};
ghost use Rattle.bt_store.specs.Review.{recalled};
ghost use Rattle.bt_store.specs.FileStore.{new_states};

use crate::block_states::{BlockState, BlockStates};
use crate::error::Refused;
use bt_disk::{DeviceFault, Disk};
use bt_tree::{Geometry, NodeHash};
use std::alloc::Global;
use std::marker::Model;

/// The blocks of one file on a device.
///
/// The file has at least one byte. Block i lies at byte 16,384 i of the device. Each call that takes a tree
/// takes that of the file, which has the same geometry; only `create`, `adopt` and `adopt_groups` take memory.
#[derive(Drop)]
pub struct FileStore<D: Disk + Drop, H: NodeHash> {
    pub(crate) alloc: Global,
    pub(crate) disk: D,
    pub(crate) hash: H,
    pub(crate) geometry: Geometry,
    pub(crate) states: BlockStates,
}

impl<D: Disk + Drop, H: NodeHash> Model for FileStore<D, H> {
    ghost use Rattle.std.specs.Prelude.{◌≡◌, length};
    ghost use Rattle.bt_tree.specs.Blocks.{block_count};
    ghost use Rattle.bt_store.specs.FileStore.{StoreView};

    ghost Value = { StoreView D };

    ghost view = { λ a. record { file_length = a.geometry; disk = a.disk; states = a.states } };

    ghost invariant = { λ a. length a.states ≡ block_count a.geometry };
}

impl<D: Disk + Drop, H: NodeHash> FileStore<D, H> {
    /// A store of a file of which all blocks are missing. No call of the device is made. Where memory is
    /// refused, the device is given back.
    pub fn create(
        alloc: Global,
        disk: D,
        hash: H,
        geometry: Geometry,
    ) -> Result<FileStore<D, H>, Refused<D>>
        ensures file { IfOk result (λ store. store.file_length ≡ geometry) }
        ensures disk { IfOk result (λ store. store.disk ≡ disk) }
        ensures states { IfOk result (λ store. store.states ≡ new_states geometry) }
        ensures refused { IfErr result (λ refused. refused.disk ≡ disk) }
    {
        let Ok(states) = BlockStates::new(alloc, geometry.blocks()) else {
            return Err(Refused { disk });
        };
        Ok(FileStore {
            alloc,
            disk,
            hash,
            geometry,
            states,
        })
    }

    /// The shape of the file's tree. The store has as many states as the file has blocks.
    pub fn geometry(&self) -> Geometry
        ensures value { result ≡ self.now.file_length }
        ensures states { length self.now.states ≡ block_count self.now.file_length }
    {
        self.geometry
    }

    /// The state of a block; none where the file has no such block.
    pub fn state(&self, block: u32) -> Option<BlockState>
        ensures { result ≡ slice_get self.now.states block }
    {
        self.states.get(block)
    }

    /// How many blocks are marked, in constant time.
    pub fn marked(&self) -> u32
        ensures { result ≡ count_by is_marked self.now.states }
    {
        self.states.marked()
    }

    /// How many blocks wait for their leaf, in constant time.
    pub fn waiting(&self) -> u32
        ensures { result ≡ count_by is_waiting self.now.states }
    {
        self.states.waiting()
    }

    /// Whether all blocks are marked, in constant time.
    pub fn is_complete(&self) -> bool
        ensures { IsTrue result ↔ All (λ state. state ≡ BlockState.Marked) self.now.states }
    {
        self.marked() == self.geometry.blocks()
    }

    /// The device.
    pub fn disk(&self) -> &D
        ensures { result.now ≡ self.now.disk }
    {
        &self.disk
    }

    /// Gives the device back, as it stands.
    pub fn into_disk(self) -> D
        ensures { result ≡ self.disk }
    {
        let FileStore { disk, .. } = self;
        disk
    }

    /// Makes all blocks missing. No call of the device is made.
    pub fn clear(&mut self)
        ensures states { self.new.states ≡ new_states self.old.file_length }
        ensures others { self.new ≡ record self.old { states = self.new.states } }
    {
        self.states.clear();
    }

    /// Makes a missing block wait, so that `settle` reads it once its leaf is known; it then has the state that
    /// `restore` would give it. Any other block stays as it is. No call of the device is made.
    pub fn recall(&mut self, block: u32)
        ensures states { self.new.states ≡ recalled self.old.states block }
        ensures others { self.new ≡ record self.old { states = self.new.states } }
    {
        if self.is_missing(block) {
            self.states.set(block, BlockState::Waiting);
        }
    }

    /// Syncs the device, by one call. All states stay.
    ///
    /// Errors: the call fails.
    pub fn sync(&mut self) -> Result<(), DeviceFault>
        ensures call { HasCalls D.conduct
            self.old.disk (sync_call result ∷ []) self.new.disk }
        ensures others { self.new ≡ record self.old { disk = self.new.disk } }
    {
        self.disk.sync()
    }
}
