//! How many blocks of each piece are not marked, and how many of all files wait. One look tells whether a piece
//! is whole, and whether there is a block to be settled.
ghost use Rattle.std.specs.Prelude.{◌≡◌, ◌+◌, ◌-◌, ◌^◌, ◌<◌, ◌≤◌, length, slice_index, slice_set};
ghost use Rattle.bt_engine_state.specs.BlockChangeSteps.{mark_count, wait_count};

use bt_store::BlockState;

/// Counts of blocks by their states.
#[derive(Drop)]
pub struct Counts {
    /// For each piece how many of its blocks are not marked.
    pub unmarked: Vec<u32>,
    /// How many blocks wait, of all files.
    pub waiting: u64,
}

/// Takes a block of a piece, whose state was `was`, out of the counts or into them, as its state is `now`.
pub(crate) fn count_block(counts: &mut Counts, piece: u32, was: BlockState, now: BlockState)
    requires inside { piece < length counts.old.unmarked.items }
    requires room { slice_index counts.old.unmarked.items piece + mark_count was < 2 ^ 32 }
    requires some { mark_count now ≤ slice_index counts.old.unmarked.items piece + mark_count was }
    requires waiting_room { counts.old.waiting + wait_count now < 2 ^ 64 }
    requires waiting_some { wait_count was ≤ counts.old.waiting + wait_count now }
    ensures unmarked { counts.new.unmarked.items ≡ slice_set counts.old.unmarked.items piece
        (slice_index counts.old.unmarked.items piece + mark_count was - mark_count now) }
    ensures waiting { counts.new.waiting ≡ counts.old.waiting + wait_count now - wait_count was }
{
    count_unmarked(&mut counts.unmarked, piece, was, now);
    count_waiting(&mut counts.waiting, was, now);
}

/// Takes a block of a piece out of the count of those that are not marked, or into it.
fn count_unmarked(unmarked: &mut [u32], piece: u32, was: BlockState, now: BlockState)
    requires inside { piece < length unmarked.old }
    requires room { slice_index unmarked.old piece + mark_count was < 2 ^ 32 }
    requires some { mark_count now ≤ slice_index unmarked.old piece + mark_count was }
    ensures { unmarked.new ≡ slice_set unmarked.old piece
        (slice_index unmarked.old piece + mark_count was - mark_count now) }
{
    let count = &mut unmarked[piece as usize];
    if was == BlockState::Marked {
        *count += 1;
    }
    if now == BlockState::Marked {
        *count -= 1;
    }
}

/// Takes a block into the count of those that wait, or out of it.
fn count_waiting(waiting: &mut u64, was: BlockState, now: BlockState)
    requires room { waiting.old + wait_count now < 2 ^ 64 }
    requires some { wait_count was ≤ waiting.old + wait_count now }
    ensures { waiting.new ≡ waiting.old + wait_count now - wait_count was }
{
    if now == BlockState::Waiting {
        *waiting += 1;
    }
    if was == BlockState::Waiting {
        *waiting -= 1;
    }
}
