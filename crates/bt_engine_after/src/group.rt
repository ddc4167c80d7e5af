//! A group of a file's blocks, and what it leaves for a log.
ghost use Rattle.std.specs.Prelude.{◌≡◌, ◌+◌, ◌-◌, ◌<◌, ◌≤◌, min, is_some, true, false, length, None, IfOk, IfErr};
ghost use Rattle.bt_tree.specs.Limits.{max_block_count, max_height};
ghost use Rattle.bt_tree.specs.Blocks.{block_count};
ghost use Rattle.bt_sparse.specs.SparseTree.{blocks_of, value_at};
ghost use Rattle.bt_sparse.specs.Anchor.{IsAnchor};
ghost use Rattle.bt_machine.specs.ProofKeys.{ProofKeysAreAnswered};
ghost use Rattle.bt_engine_state.specs.Parts.{pending_of};
ghost use Rattle.bt_engine_after.specs.GroupSteps.{log_in, file_view, TakesGroup, StopsGroup};

use crate::marks::{FileRun, KNOWN_LEN, Kind, push_marked, push_runs, runs_of, unmarked_blocks};
use crate::run_proofs::{proof_rooms, push_proofs};
use bt_disk::Disk;
use bt_engine_state::{OpenLog, Pending};
use bt_machine::proof_keys_are_answered;
use bt_sparse::SparseTree;
use bt_store::{Adopted, FileStore, group_below};
use bt_tree::NodeHash;
use std::alloc::{AllocError, Global};

/// Takes in the group of a block. With a log, its proofs and then the marks of its newly marked blocks are
/// pending after what was. The one error is out of memory: then the group may have been read.
pub(crate) fn adopt_group<D: Disk + Drop, H: NodeHash>(
    alloc: Global,
    store: &mut FileStore<D, H>,
    tree: &mut SparseTree<H>,
    file: u32,
    from: u32,
    log: &mut Option<OpenLog<D>>,
) -> Result<Adopted, AllocError>
    requires geometry { tree.old.file_length ≡ store.old.file_length }
    requires states { length store.old.states ≡ block_count store.old.file_length }
    requires inside { from < block_count store.old.file_length }
    ensures ok { IfOk result (λ adopted. TakesGroup D.conduct H.digest file
        (is_some log.old) from (file_view tree.old store.old (pending_of log.old)) adopted
        (file_view tree.new store.new (pending_of log.new))) }
    ensures onward { IfOk result (λ adopted. from < adopted.next) }
    ensures within { IfOk result (λ adopted. adopted.next ≤ block_count store.old.file_length) }
    ensures stop { IfErr result (λ _. StopsGroup D.conduct H.digest
        tree.old from store.old store.new) }
    ensures tree { IfErr result (λ _. tree.new ≡ tree.old) }
    ensures pending { IfErr result (λ _. pending_of log.new ≡ pending_of log.old) }
    ensures unknown { IfErr result (λ _. is_some log.old ≡ false
        → value_at H.digest tree.old 0 from ≡ None) }
    ensures log { log_in log.new ≡ log_in log.old }
{
    proof_keys_are_answered::<H>();
    match log {
        Some(opened) => adopt_recorded(alloc, store, tree, file, from, &mut opened.pending),
        None => store.adopt(tree, from),
    }
}

/// Takes in the group of a block, with a log. Errors: out of memory.
fn adopt_recorded<D: Disk + Drop, H: NodeHash>(
    alloc: Global,
    store: &mut FileStore<D, H>,
    tree: &mut SparseTree<H>,
    file: u32,
    from: u32,
    pending: &mut Pending,
) -> Result<Adopted, AllocError>
    requires geometry { tree.old.file_length ≡ store.old.file_length }
    requires states { length store.old.states ≡ block_count store.old.file_length }
    requires inside { from < block_count store.old.file_length }
    requires answered { ProofKeysAreAnswered H.digest }
    ensures ok { IfOk result (λ adopted. TakesGroup D.conduct H.digest file true
        from (file_view tree.old store.old pending.old.hints) adopted
        (file_view tree.new store.new pending.new.hints)) }
    ensures onward { IfOk result (λ adopted. from < adopted.next) }
    ensures within { IfOk result (λ adopted. adopted.next ≤ block_count store.old.file_length) }
    ensures stop { IfErr result (λ _. StopsGroup D.conduct H.digest
        tree.old from store.old store.new) }
    ensures tree { IfErr result (λ _. tree.new ≡ tree.old) }
    ensures pending { IfErr result (λ _. pending.new.hints ≡ pending.old.hints) }
{
    let anchor = tree.anchor(from);
    if anchor == 0 {
        adopt_known(store, tree, file, from, pending)
    } else {
        adopt_claimed(alloc, store, tree, file, from, anchor, pending)
    }
}

/// Takes in a group whose leaves are known, which leaves no proof. Errors: out of memory.
fn adopt_known<D: Disk + Drop, H: NodeHash>(
    store: &mut FileStore<D, H>,
    tree: &mut SparseTree<H>,
    file: u32,
    from: u32,
    pending: &mut Pending,
) -> Result<Adopted, AllocError>
    requires geometry { tree.old.file_length ≡ store.old.file_length }
    requires states { length store.old.states ≡ block_count store.old.file_length }
    requires inside { from < block_count store.old.file_length }
    requires known { IsAnchor tree.old from 0 }
    ensures ok { IfOk result (λ adopted. TakesGroup D.conduct H.digest file true
        from (file_view tree.old store.old pending.old.hints) adopted
        (file_view tree.new store.new pending.new.hints)) }
    ensures onward { IfOk result (λ adopted. from < adopted.next) }
    ensures within { IfOk result (λ adopted. adopted.next ≤ block_count store.old.file_length) }
    ensures stop { IfErr result (λ _. StopsGroup D.conduct H.digest
        tree.old from store.old store.new) }
    ensures tree { IfErr result (λ _. tree.new ≡ tree.old) }
    ensures pending { IfErr result (λ _. pending.new.hints ≡ pending.old.hints) }
{
    let group = blocks_ahead(tree, from);
    let unmarked = unmarked_blocks(store, group);
    pending.reserve(unmarked.len())?;
    let adopted = store.adopt(tree, from)?;
    push_marked(store, file, unmarked.as_slice(), pending);
    Ok(adopted)
}

/// Takes in a group whose blocks are claimed together, below a node of layer `anchor`. All room is made before
/// the group is read. Errors: out of memory.
fn adopt_claimed<D: Disk + Drop, H: NodeHash>(
    alloc: Global,
    store: &mut FileStore<D, H>,
    tree: &mut SparseTree<H>,
    file: u32,
    from: u32,
    anchor: u32,
    pending: &mut Pending,
) -> Result<Adopted, AllocError>
    requires geometry { tree.old.file_length ≡ store.old.file_length }
    requires states { length store.old.states ≡ block_count store.old.file_length }
    requires inside { from < block_count store.old.file_length }
    requires answered { ProofKeysAreAnswered H.digest }
    requires nearest { IsAnchor tree.old from anchor }
    requires above { 0 < anchor }
    requires high { anchor ≤ max_height }
    ensures ok { IfOk result (λ adopted. TakesGroup D.conduct H.digest file true
        from (file_view tree.old store.old pending.old.hints) adopted
        (file_view tree.new store.new pending.new.hints)) }
    ensures onward { IfOk result (λ adopted. from < adopted.next) }
    ensures within { IfOk result (λ adopted. adopted.next ≤ block_count store.old.file_length) }
    ensures stop { IfErr result (λ _. StopsGroup D.conduct H.digest
        tree.old from store.old store.new) }
    ensures tree { IfErr result (λ _. tree.new ≡ tree.old) }
    ensures pending { IfErr result (λ _. pending.new.hints ≡ pending.old.hints) }
{
    let below = group_below(tree, from, anchor);
    let group = FileRun {
        first: below.first,
        count: below.count,
    };
    let rooms = proof_rooms(alloc, group, anchor)?;
    let runs = runs_of(alloc, store, group, Kind::Unmarked)?;
    pending.reserve(rooms.len() + runs.len())?;
    let adopted = store.adopt(tree, from)?;
    if adopted.marked > 0 {
        push_proofs(tree, group, anchor, rooms, pending);
        push_runs(file, &runs, pending);
    }
    Ok(adopted)
}

/// The blocks from one on that a group may have whose leaves are known.
fn blocks_ahead<H: NodeHash>(tree: &SparseTree<H>, from: u32) -> FileRun
    requires { from < blocks_of tree.now }
    ensures first { result.first ≡ from }
    ensures count { result.count ≡ min 8 (blocks_of tree.now - from) }
    ensures limit { result.first + result.count ≤ max_block_count }
{
    let rest = tree.geometry().blocks() - from;
    FileRun {
        first: from,
        count: rest.min(KNOWN_LEN as u32),
    }
}
