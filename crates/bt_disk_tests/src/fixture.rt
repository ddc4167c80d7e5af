//! A store with the tree of its file. It is called through functions without a contract, so that no proof here
//! carries a clause of its calls.
ghost use Rattle.std.specs.Prelude.{◌≡◌};
ghost use Rattle.std.specs.Bool.{OnTrue};

use bt_disk::{FaultDisk, MemoryDisk};
use bt_rows::RowError;
use bt_sparse::{AnswerError, Claim, SparseTree};
use bt_store::{
    Adopted, AdoptedGroups, BlockState, FileStore, Put, ReadError, Rechecked, Settled, StoreError,
};
use bt_tree::{BLOCK_LEN, Hash32, NodeHash};
use std::alloc::{AllocError, Global};

#[derive(Drop)]
pub struct Fixture<H: NodeHash> {
    pub store: FileStore<FaultDisk<MemoryDisk>, H>,
    tree: SparseTree<H>,
}

/// A store of the tree's file on a device.
pub fn make_fixture<H: NodeHash>(
    alloc: Global,
    hash: H,
    tree: SparseTree<H>,
    disk: FaultDisk<MemoryDisk>,
) -> Result<Fixture<H>, RowError> {
    match FileStore::create(alloc, disk, hash, tree.geometry()) {
        Ok(store) => Ok(Fixture { store, tree }),
        Err(_) => Err(RowError::Unread),
    }
}

impl<H: NodeHash> Fixture<H> {
    /// Whether store and tree are of one length.
    fn fits(&self) -> bool
        ensures { OnTrue result (self.now.tree.file_length ≡ self.now.store.file_length) }
    {
        self.tree.geometry().length() == self.store.geometry().length()
    }

    pub fn put(&mut self, block: u32, bytes: &[u8]) -> Option<Result<Put, StoreError>> {
        if !self.fits() {
            return None;
        }
        Some(self.store.put(&self.tree, block, bytes))
    }

    pub fn settle(&mut self, from: u32, count: u32) -> Option<Result<Settled, StoreError>> {
        if !self.fits() {
            return None;
        }
        Some(self.store.settle(&self.tree, from, count))
    }

    pub fn recheck(&mut self) -> Option<Rechecked> {
        if !self.fits() {
            return None;
        }
        Some(self.store.recheck(&self.tree))
    }

    pub fn read(&mut self, block: u32, out: &mut [u8]) -> Option<Result<usize, ReadError>> {
        if !self.fits() || out.len() < BLOCK_LEN {
            return None;
        }
        Some(self.store.read(&self.tree, block, out))
    }

    pub fn restore(&mut self, block: u32) -> Option<Result<bool, StoreError>> {
        if !self.fits() {
            return None;
        }
        Some(self.store.restore(&self.tree, block))
    }

    pub fn adopt(&mut self, from: u32) -> Option<Result<Adopted, AllocError>> {
        if !self.fits() || from > self.store.geometry().blocks() {
            return None;
        }
        Some(self.store.adopt(&mut self.tree, from))
    }

    pub fn adopt_groups(&mut self, from: u32) -> Option<Result<AdoptedGroups, AllocError>> {
        if !self.fits() || from >= self.store.geometry().blocks() {
            return None;
        }
        Some(self.store.adopt_groups(&mut self.tree, from))
    }

    pub fn accept(&mut self, claim: &Claim) -> bool {
        self.tree.accept(claim).is_ok()
    }

    pub fn answer(&self, index: u32, layers: u32) -> Result<Vec<Hash32>, AnswerError> {
        self.tree.answer(0, index, 2, layers)
    }

    pub fn state(&self, block: u32) -> Option<BlockState> {
        self.store.state(block)
    }

    pub fn marked(&self) -> u32 {
        self.store.marked()
    }

    pub fn waiting(&self) -> u32 {
        self.store.waiting()
    }

    pub fn is_complete(&self) -> bool {
        self.store.is_complete()
    }

    pub fn leaf(&self, block: u32) -> Option<Hash32> {
        self.tree.known(0, block)
    }

    /// The bytes of the device.
    pub fn bytes(&self) -> &[u8] {
        self.store.disk().inner().bytes()
    }

    /// The device, given back.
    pub fn into_disk(self) -> FaultDisk<MemoryDisk> {
        let Fixture { store, .. } = self;
        store.into_disk()
    }
}
