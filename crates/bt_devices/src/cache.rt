//! Blocks whose digests were made ahead.
ghost use Rattle.std.specs.Prelude.{◌≡◌, ◌≢◌, ◌↔◌, ℕ, ◌<◌, [], length, map, All, Contains, IfOk, IfSome, IsSome, MatchOption};
ghost use Rattle.sha2.specs.Sha256.{sha256};
ghost use Rattle.bt_tree.specs.Limits.{full_block_length};
ghost use Rattle.bt_tree.specs.Blocks.{block_at};
ghost use Rattle.bt_devices.specs.Cache.{run_length, blocks_of, TakesRun};

use crate::comparison::are_same;
use bt_disk::Disk;
use bt_lanes::Lanes;
use bt_tree::{BLOCK_LEN, Hash32, NodeHash};
use std::alloc::{AllocError, Global};
use std::marker::Model;

/// How many blocks are digested at a time.
const RUN_BLOCKS: usize = 8;

/// How many bytes these have.
pub(crate) const RUN_LEN: usize = RUN_BLOCKS * BLOCK_LEN;

/// Eight blocks of 16,384 bytes and their digests, or none.
#[derive(Drop)]
pub struct DigestCache {
    /// Room for the blocks, one after the other.
    run: Vec<u8>,
    /// The digest of each, where it is full.
    digests: [Hash32; RUN_BLOCKS],
    is_full: bool,
    /// Whether a digest was wanted since the last blocks were taken.
    is_wanted: bool,
}

impl Model for DigestCache {
    ghost use Rattle.std.specs.Prelude.{ℕ, List};
    ghost use Rattle.bt_devices.specs.Cache.{known_blocks};
    ghost use Rattle.bt_devices.specs.CacheSteps.{IsDigested};

    ghost Value = { List (List ℕ) };

    ghost view = { λ c. known_blocks c.is_full c.run.items };

    ghost invariant = { λ c. IsDigested c.is_full c.run.items c.digests };
}

impl DigestCache {
    /// No block yet. All the memory that is ever taken for blocks is taken here. Errors: out of memory.
    pub fn new(alloc: Global) -> Result<Self, AllocError>
        ensures { IfOk result (λ cache. cache ≡ []) }
    {
        Ok(DigestCache {
            run: vec![in alloc; 0; RUN_LEN]?,
            digests: [[0; 32]; RUN_BLOCKS],
            is_full: false,
            is_wanted: false,
        })
    }

    /// Notes that the digest of a block is wanted.
    pub fn want(&mut self)
        ensures { self.new ≡ self.old }
    {
        self.is_wanted = true;
    }

    /// Whether blocks are to be taken: a digest was wanted since this was asked last. Where none is, as blocks
    /// are digested by eights already or wait for their hashes, it is work for nothing.
    pub fn is_due(&mut self) -> bool
        ensures { self.new ≡ self.old }
    {
        let due = self.is_wanted;
        self.is_wanted = false;
        due
    }

    /// Takes eight whole blocks in the place of what it had, and makes their digests.
    pub fn fill(&mut self, blocks: &[&[u8]; 8])
        requires { All (λ block. length block.now ≡ full_block_length) blocks.now }
        ensures { self.new ≡ map (λ block. block.now) blocks.now }
    {
        put_blocks(self.run.as_mut_slice(), blocks);
        self.digests = Lanes.blocks8(self.run.as_slice());
        self.is_full = true;
    }

    /// The digest of a block, where it is one of those that it has.
    pub fn find(&self, block: &[u8]) -> Option<Hash32>
        ensures found { IsSome result ↔ Contains self.now block.now }
        ensures digest { IfSome result (λ digest. digest ≡ sha256 block.now) }
    {
        if !self.is_full {
            return None;
        }
        match place_of(self.run.as_slice(), block) {
            Some(place) => Some(self.digests[place]),
            None => None,
        }
    }

    /// Takes the eight blocks that lie on a device from a byte on, by one read, and makes their digests. It
    /// has no block where the read fails or not all of them are there.
    pub(crate) fn take_run<D: Disk>(&mut self, disk: &mut D, at: u64)
        ensures { TakesRun D.conduct disk.old at self.new disk.new }
    {
        self.is_full = false;
        let Ok(count) = disk.read_at(at, self.run.as_mut_slice()) else {
            return;
        };
        if count == RUN_LEN {
            self.digests = Lanes.blocks8(self.run.as_slice());
            self.is_full = true;
        }
    }
}

/// Writes eight whole blocks one after the other.
fn put_blocks(run: &mut [u8], blocks: &[&[u8]; 8])
    requires room { length run.old ≡ run_length }
    requires whole { All (λ block. length block.now ≡ full_block_length) blocks.now }
    ensures { blocks_of run.new ≡ map (λ block. block.now) blocks.now }
{
    for j in 0..RUN_BLOCKS {
        run[j * BLOCK_LEN..(j + 1) * BLOCK_LEN].copy_from_slice(blocks[j]);
    }
}

/// Which block of eight this one is.
fn place_of(run: &[u8], block: &[u8]) -> Option<usize>
    requires { length run.now ≡ run_length }
    ensures { MatchOption result ((j : ℕ) → j < 8 → block_at run.now j ≢ block.now)
        (λ j. (j < 8) × (block_at run.now j ≡ block.now)) }
{
    if block.len() != BLOCK_LEN {
        return None;
    }
    for j in 0..RUN_BLOCKS {
        if are_same(&run[j * BLOCK_LEN..(j + 1) * BLOCK_LEN], block) {
            return Some(j);
        }
    }
    None
}
