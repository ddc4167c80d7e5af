//! Blocks of a file that are not marked, or that wait, in runs; and the marks that are left for a log of those
//! that were.
ghost use Rattle.std.specs.Prelude.{◌≡◌, ◌+◌, ◌<◌, ◌≤◌, ◌++◌, min, flat_map, filter, All, IfOk, OnOk, length};
ghost use Rattle.std.specs.Int.{div_ceil};
ghost use Rattle.bt_tree.specs.Limits.{max_block_count};
ghost use Rattle.bt_store.specs.Review.{is_marked_at, is_waiting_at};
ghost use Rattle.bt_machine.specs.Hints.{add_hints};
ghost use Rattle.bt_engine_after.specs.MarksSteps.{is_of, blocks_of_kind, unmarked_blocks, marks_in, run_blocks, AreRuns, EndBefore, most_hints};

use arrayvec::ArrayVec;
use bt_disk::Disk;
use bt_engine_state::Pending;
use bt_resume::Hint;
use bt_store::{BlockState, FileStore};
use bt_tree::NodeHash;
use std::alloc::{AllocError, Global};

/// How many blocks `FileStore::adopt` takes in at most, as one group, where their leaves are known.
pub(crate) const KNOWN_LEN: usize = 8;

/// Blocks of a file that follow each other.
#[derive(Clone, Copy)]
pub(crate) struct FileRun {
    pub(crate) first: u32,
    pub(crate) count: u32,
}

/// Which blocks of a file are meant.
#[derive(Clone, Copy)]
pub(crate) enum Kind {
    /// Those that are not marked.
    Unmarked,
    /// Those that wait for their leaf.
    Waits,
}

/// The blocks of a group that are not marked, where their leaves are known.
pub(crate) fn unmarked_blocks<D: Disk + Drop, H: NodeHash>(
    store: &FileStore<D, H>,
    run: FileRun,
) -> ArrayVec<u32, KNOWN_LEN>
    requires few { run.count ≤ 8 }
    requires within { run.first + run.count ≤ max_block_count }
    ensures { result.items ≡ unmarked_blocks store.now.states run.first run.count }
{
    let mut blocks = ArrayVec::new();
    for offset in 0..run.count {
        let block = run.first + offset;
        if !is_marked(store, block) {
            blocks.push(block);
        }
    }
    blocks
}

/// The blocks of a run that are of a kind, in runs as few as may be. Errors: out of memory.
pub(crate) fn runs_of<D: Disk + Drop, H: NodeHash>(
    alloc: Global,
    store: &FileStore<D, H>,
    run: FileRun,
    kind: Kind,
) -> Result<Vec<FileRun>, AllocError>
    requires { run.first + run.count ≤ max_block_count }
    ensures blocks { IfOk result (λ runs. flat_map run_blocks runs.items
        ≡ blocks_of_kind kind store.now.states run.first run.count) }
    ensures runs { IfOk result (λ runs. AreRuns runs.items) }
{
    let mut runs = Vec::new(alloc);
    let mut current = FileRun {
        first: run.first,
        count: 0,
    };
    for offset in 0..run.count {
        let block = run.first + offset;
        if is_of(store, block, kind) {
            current.count += 1;
        } else {
            close(&mut runs, current)?;
            current = FileRun {
                first: block + 1,
                count: 0,
            };
        }
    }
    close(&mut runs, current)?;
    Ok(runs)
}

/// Puts a run after others, if it has a block. Errors: out of memory.
fn close(runs: &mut Vec<FileRun>, run: FileRun) -> Result<(), AllocError>
    requires within { run.first + run.count ≤ max_block_count }
    requires runs { AreRuns runs.old.items }
    requires before { EndBefore run.first runs.old.items }
    ensures blocks { OnOk result
        (flat_map run_blocks runs.new.items ≡ flat_map run_blocks runs.old.items
        ++ run_blocks run) }
    ensures runs { OnOk result (AreRuns runs.new.items) }
    ensures before { OnOk result (EndBefore (run.first + run.count + 1) runs.new.items) }
{
    if run.count > 0 {
        runs.push(run)?;
    }
    Ok(())
}

/// Whether a block is of a kind.
fn is_of<D: Disk + Drop, H: NodeHash>(store: &FileStore<D, H>, block: u32, kind: Kind) -> bool
    ensures { result ≡ is_of kind store.now.states block }
{
    match kind {
        Kind::Unmarked => !is_marked(store, block),
        Kind::Waits => is_waiting(store, block),
    }
}

/// Whether a block is marked.
fn is_marked<D: Disk + Drop, H: NodeHash>(store: &FileStore<D, H>, block: u32) -> bool
    ensures { result ≡ is_marked_at store.now.states block }
{
    match store.state(block) {
        Some(BlockState::Marked) => true,
        Some(BlockState::Waiting | BlockState::Missing) | None => false,
    }
}

/// Whether a block waits.
fn is_waiting<D: Disk + Drop, H: NodeHash>(store: &FileStore<D, H>, block: u32) -> bool
    ensures { result ≡ is_waiting_at store.now.states block }
{
    match store.state(block) {
        Some(BlockState::Waiting) => true,
        Some(BlockState::Marked | BlockState::Missing) | None => false,
    }
}

/// Leaves the marks of those of the blocks that are marked now.
pub(crate) fn push_marked<D: Disk + Drop, H: NodeHash>(
    store: &FileStore<D, H>,
    file: u32,
    blocks: &[u32],
    pending: &mut Pending,
)
    requires room { length blocks.now ≤ pending.old.room }
    requires within { All (λ block. block < max_block_count) blocks.now }
    ensures { pending.new.hints ≡ add_hints pending.old.hints
        (marks_in file (filter (is_marked_at store.now.states) blocks.now)) }
{
    for block in blocks {
        if is_marked(store, *block) {
            pending.push_mark(file, *block);
        }
    }
}

/// Leaves the marks of all blocks of runs.
pub(crate) fn push_runs(file: u32, runs: &[FileRun], pending: &mut Pending)
    requires room { length runs.now ≤ pending.old.room }
    requires runs { AreRuns runs.now }
    ensures hints { pending.new.hints ≡ add_hints pending.old.hints
        (marks_in file (flat_map run_blocks runs.now)) }
    ensures room { pending.old.room ≤ pending.new.room + length runs.now }
{
    for run in runs {
        pending.push(Hint::Marks {
            file,
            first: run.first,
            count: run.count,
        });
    }
}

/// Leaves the marks of those blocks of runs that are marked now.
pub(crate) fn push_marked_in<D: Disk + Drop, H: NodeHash>(
    store: &FileStore<D, H>,
    file: u32,
    runs: &[FileRun],
    pending: &mut Pending,
)
    requires runs { AreRuns runs.now }
    requires room { most_hints runs.now ≤ pending.old.room }
    ensures hints { pending.new.hints ≡ add_hints pending.old.hints
        (marks_in file (filter (is_marked_at store.now.states) (flat_map run_blocks runs.now))) }
    ensures room { pending.old.room ≤ pending.new.room + most_hints runs.now }
{
    for run in runs {
        push_marked_of(store, file, *run, pending);
    }
}

/// Leaves the marks of those blocks of a run that are marked now. Between two runs of them there is a block
/// that is not, so every other block takes a hint at most.
fn push_marked_of<D: Disk + Drop, H: NodeHash>(
    store: &FileStore<D, H>,
    file: u32,
    run: FileRun,
    pending: &mut Pending,
)
    requires within { run.first + run.count ≤ max_block_count }
    requires room { div_ceil run.count 2 ≤ pending.old.room }
    ensures hints { pending.new.hints ≡ add_hints pending.old.hints
        (marks_in file (filter (is_marked_at store.now.states) (run_blocks run))) }
    ensures room { pending.old.room ≤ pending.new.room + div_ceil run.count 2 }
{
    let mut marked = FileRun {
        first: run.first,
        count: 0,
    };
    for offset in 0..run.count {
        let block = run.first + offset;
        if is_marked(store, block) {
            marked.count += 1;
        } else {
            push_run(file, marked, pending);
            marked = FileRun {
                first: block + 1,
                count: 0,
            };
        }
    }
    push_run(file, marked, pending);
}

/// Leaves the marks of a run, if it has a block.
fn push_run(file: u32, run: FileRun, pending: &mut Pending)
    requires within { run.first + run.count ≤ max_block_count }
    requires room { min run.count 1 ≤ pending.old.room }
    ensures hints { pending.new.hints ≡ add_hints pending.old.hints
        (marks_in file (run_blocks run)) }
    ensures room { pending.old.room ≤ pending.new.room + min run.count 1 }
{
    if run.count > 0 {
        pending.push(Hint::Marks {
            file,
            first: run.first,
            count: run.count,
        });
    }
}

/// How many hints the marks of runs take at most, whichever of their blocks are marked.
pub(crate) fn most_hints(runs: &[FileRun]) -> usize
    requires { most_hints runs.now ≤ max_block_count }
    ensures { result ≡ most_hints runs.now }
{
    let mut hints = 0;
    for run in runs {
        hints += run.count.div_ceil(2) as usize;
    }
    hints
}
