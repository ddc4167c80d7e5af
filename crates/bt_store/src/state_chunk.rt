//! The states of blocks that lie side by side. Room for all of them is reserved at the start, and written no
//! further than up to the last block that was given a state.
ghost use Rattle.std.specs.Prelude.{◌≡◌, ℕ, ◌<◌, ◌≤◌, max, IfOk, length, replicate, slice_index_or, slice_set, vec_capacity};
ghost use Rattle.bt_store.specs.declared.block_states.BlockState.TheVariants.{Missing};

use crate::block_states::BlockState;
use std::alloc::{AllocError, Global};
use std::marker::Model;

/// The states of blocks side by side.
#[derive(Drop)]
pub(crate) struct StateChunk {
    count: usize,
    /// Those of the first blocks; the others are missing. There is room for all of them.
    states: Vec<BlockState>,
}

impl Model for StateChunk {
    ghost use Rattle.std.specs.Prelude.{◌≤◌, List, length, vec_capacity};
    ghost use Rattle.bt_store.specs.declared.block_states.BlockState.{BlockState};
    ghost use Rattle.bt_store.specs.StateChunks.{padded};

    ghost Value = { List BlockState };

    ghost view = { λ c. padded c.count c.states.items };

    ghost invariant = { λ c. (length c.states.items ≤ c.count)
        × (c.count ≤ vec_capacity c.states) };
}

impl StateChunk {
    /// All blocks are missing. Errors: out of memory.
    pub(crate) fn new(alloc: Global, count: usize) -> Result<StateChunk, AllocError>
        ensures { IfOk result (λ chunk. chunk ≡ replicate count Missing) }
    {
        Ok(StateChunk {
            count,
            states: Vec::with_capacity(alloc, count)?,
        })
    }

    /// The state of one of the blocks.
    pub(crate) fn get(&self, index: usize) -> BlockState
        requires { index < length self.now }
        ensures { result ≡ slice_index_or self.now index Missing }
    {
        if index < self.states.len() {
            self.states[index]
        } else {
            BlockState::Missing
        }
    }

    /// Gives one of the blocks another state.
    pub(crate) fn set(&mut self, index: usize, state: BlockState)
        requires { index < length self.old }
        ensures { self.new ≡ slice_set self.old index state }
    {
        fill_up(&mut self.states, index + 1);
        self.states[index] = state;
    }

    /// Makes all blocks missing.
    pub(crate) fn clear(&mut self)
        ensures { self.new ≡ replicate (length self.old) Missing }
    {
        self.states.clear();
    }
}

/// Writes the states of the first blocks, for which there is room, where they are not written yet.
fn fill_up(states: &mut Vec<BlockState>, count: usize)
    requires { count ≤ vec_capacity states.old }
    ensures same { (i : ℕ) → slice_index_or states.new.items i Missing
        ≡ slice_index_or states.old.items i Missing }
    ensures size { length states.new.items ≡ max count (length states.old.items) }
    ensures room { vec_capacity states.old ≤ vec_capacity states.new }
{
    if states.len() < count {
        let _ = states.resize(count, BlockState::Missing);
    }
}
