//! The state of each block of a file (missing, waiting or marked), and how many wait and are marked.
ghost use Rattle.std.specs.Prelude.{◌≡◌, ℕ, ◌+◌, ◌<◌, ◌≤◌, if◌then◌else◌, true, IfOk, length, map, replicate, slice_get, slice_index_or, slice_set};
ghost use Rattle.std.specs.List.{count_by};
ghost use Rattle.bt_tree.specs.Limits.{max_block_count};
ghost use Rattle.bt_store.specs.BlockStates.{is_marked, is_waiting};
ghost use Rattle.bt_store.specs.StateChunks.{state_in, HavePlaces};
ghost use Rattle.bt_store.specs.declared.block_states.BlockState.TheVariants.{Missing};

use crate::state_chunk::StateChunk;
use std::alloc::{AllocError, Global};
use std::marker::Model;

/// How many blocks the states of a chunk are of at most.
const CHUNK: u32 = 65_536;

/// What a store knows of a block.
#[derive(Clone, Copy, Debug, PartialEq, Eq)]
pub enum BlockState {
    /// The device need not have it.
    Missing,
    /// It was written while its leaf was unknown.
    Waiting,
    /// It was written or read, and its digest was its leaf.
    Marked,
}

/// The state of each block of a file, in one byte each, and how many blocks have each state.
#[derive(Drop)]
pub(crate) struct BlockStates {
    count: u32,
    /// The states of 65,536 blocks each, the last ones perhaps of fewer.
    chunks: Vec<StateChunk>,
    marked: u32,
    waiting: u32,
}

impl Model for BlockStates {
    ghost use Rattle.std.specs.Prelude.{List};
    ghost use Rattle.bt_store.specs.declared.block_states.BlockState.{BlockState};
    ghost use Rattle.bt_store.specs.BlockStates.{HasCounts};
    ghost use Rattle.bt_store.specs.StateChunks.{states_of, HavePlaces};

    ghost Value = { List BlockState };

    ghost view = { λ a. states_of a.count a.chunks.items };

    ghost invariant = { λ a. HasCounts (states_of a.count a.chunks.items) a.marked a.waiting
        × HavePlaces a.count a.chunks.items };
}

impl BlockStates {
    /// All blocks are missing. Room for their states is reserved, and not written.
    pub(crate) fn new(alloc: Global, count: u32) -> Result<BlockStates, AllocError>
        requires { count ≤ max_block_count }
        ensures { IfOk result (λ states. states ≡ replicate count Missing) }
    {
        Ok(BlockStates {
            count,
            chunks: missing_chunks(alloc, count)?,
            marked: 0,
            waiting: 0,
        })
    }

    /// The state of a block; none where the file has no such block.
    pub(crate) fn get(&self, block: u32) -> Option<BlockState>
        ensures { result ≡ slice_get self.now block }
    {
        if block < self.count {
            Some(self.state(block))
        } else {
            None
        }
    }

    /// The state of one of the file's blocks.
    fn state(&self, block: u32) -> BlockState
        requires { block < length self.now }
        ensures { result ≡ slice_index_or self.now block Missing }
    {
        self.chunks[(block / CHUNK) as usize].get((block % CHUNK) as usize)
    }

    /// Gives a block another state.
    pub(crate) fn set(&mut self, block: u32, state: BlockState)
        requires { block < length self.old }
        ensures { self.new ≡ slice_set self.old block state }
    {
        let before = self.state(block);
        self.marked = recount(self.marked, is_marked(before), is_marked(state));
        self.waiting = recount(self.waiting, is_waiting(before), is_waiting(state));
        let chunk = &mut self.chunks[(block / CHUNK) as usize];
        chunk.set((block % CHUNK) as usize, state);
    }

    /// Makes all blocks missing.
    pub(crate) fn clear(&mut self)
        ensures { self.new ≡ replicate (length self.old) Missing }
    {
        clear_chunks(&mut self.chunks);
        self.marked = 0;
        self.waiting = 0;
    }

    /// How many blocks are marked.
    pub(crate) fn marked(&self) -> u32
        ensures value { result ≡ count_by is_marked self.now }
        ensures limit { result ≤ length self.now }
    {
        self.marked
    }

    /// How many blocks wait.
    pub(crate) fn waiting(&self) -> u32
        ensures value { result ≡ count_by is_waiting self.now }
    {
        self.waiting
    }
}

/// Chunks with a place for each of so many blocks, all of which are missing. Errors: out of memory.
fn missing_chunks(alloc: Global, count: u32) -> Result<Vec<StateChunk>, AllocError>
    ensures places { IfOk result (λ chunks. HavePlaces count chunks.items) }
    ensures missing { IfOk result (λ chunks. (i : ℕ) → state_in chunks.items i ≡ Missing) }
{
    let needed = count.div_ceil(CHUNK);
    let mut chunks = Vec::with_capacity(alloc, needed as usize)?;
    for index in 0..needed {
        let left = (count - CHUNK * index) as usize;
        chunks.push(StateChunk::new(alloc, left.min(CHUNK as usize))?)?;
    }
    Ok(chunks)
}

/// Makes all blocks of the chunks missing.
fn clear_chunks(chunks: &mut [StateChunk])
    ensures { chunks.new ≡ map (λ states. replicate (length states) Missing) chunks.old }
{
    for chunk in chunks.iter_mut() {
        chunk.clear();
    }
}

/// The count of blocks of a kind once a block that was of this kind or not is of it or not.
fn recount(count: u32, was: bool, is: bool) -> u32
    requires there { was ≡ true → 0 < count }
    requires room { count ≤ max_block_count }
    ensures { result + (if was then 1 else 0) ≡ count + (if is then 1 else 0) }
{
    let others = if was { count - 1 } else { count };
    if is { others + 1 } else { others }
}

/// Whether this is the state of a marked block.
fn is_marked(state: BlockState) -> bool
    ensures { result ≡ is_marked state }
{
    matches!(state, BlockState::Marked)
}

/// Whether this is the state of a block that waits.
fn is_waiting(state: BlockState) -> bool
    ensures { result ≡ is_waiting state }
{
    matches!(state, BlockState::Waiting)
}
