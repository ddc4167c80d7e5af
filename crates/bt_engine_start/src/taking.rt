//! The proofs among a log's hints are taken by the trees of their roots, and those that no tree can take are
//! passed.
ghost use Rattle.std.specs.Prelude.{◌≡◌, ◌≢◌, OnOk, IfOk, IfErr, map};
ghost use Rattle.bt_resume.specs.LogText.{hints_in};
ghost use Rattle.bt_machine.specs.Recovery.{TakesProof};
ghost use Rattle.bt_engine_state.specs.Parts.{hints_of};
ghost use Rattle.bt_engine_state.specs.Roots.{AreNumbered};
ghost use Rattle.bt_engine_start.specs.Runs.{AreRunsOf};
ghost use Rattle.bt_engine_start.specs.Taking.{TakeFirstHints, TakeHints};
ghost use Rattle.bt_engine_start.specs.TakingSteps.{TakeProof};

use crate::runs::{MarkRun, recorded_runs};
use bt_disk::Disk;
use bt_engine_state::{OpenLog, Roots};
use bt_hashreq::{HashKey, to_claim};
use bt_resume::{Hints, LentHint};
use bt_sparse::{ProofError, SparseTree};
use bt_tree::{Hash32, NodeHash};
use std::alloc::{AllocError, Global};

/// What a log brings back before a file is read: the trees take its proofs, and given are the runs of blocks
/// that it records. Without a log there is neither, and no memory is taken. Errors: out of memory.
pub(crate) fn take_hints<D: Disk + Drop, H: NodeHash>(
    alloc: Global,
    trees: &mut [SparseTree<H>],
    roots: &Roots,
    log: &Option<OpenLog<D>>,
) -> Result<Vec<MarkRun>, AllocError>
    requires numbered { AreNumbered (map (λ k. k.root) trees.old) roots.now.trees }
    ensures taken { OnOk result (TakeHints H.digest (hints_of log.now) trees.old trees.new) }
    ensures runs { IfOk result (λ runs. AreRunsOf (hints_of log.now) runs.items) }
    ensures roots { map (λ k. k.root) trees.new ≡ map (λ k. k.root) trees.old }
    ensures lengths { map (λ k. k.file_length) trees.new ≡ map (λ k. k.file_length) trees.old }
{
    let Some(held) = log else {
        return Ok(Vec::new(alloc));
    };
    let hints = held.log.hints();
    take_proofs(alloc, trees, roots, hints)?;
    recorded_runs(alloc, hints)
}

/// Each proof of a log's hints, in their order, is taken by the tree of its root, where it can be accepted.
/// Marks are passed, and so are proofs of which no claim can be made, and those of other roots. It goes once
/// over the hints, and looks up the root of each proof. Where there is no hint it takes no memory.
///
/// Errors: out of memory, and then the trees have taken the proofs of some first hints, and none of those
/// after them, of which there is at least one.
pub fn take_proofs<H: NodeHash>(
    alloc: Global,
    trees: &mut [SparseTree<H>],
    roots: &Roots,
    hints: &Hints,
) -> Result<(), AllocError>
    requires numbered { AreNumbered (map (λ k. k.root) trees.old) roots.now.trees }
    ensures taken { OnOk result (TakeHints H.digest (hints_in hints.now) trees.old trees.new) }
    ensures refused { IfErr result (λ _. TakeFirstHints H.digest (hints_in hints.now) trees.old
        trees.new) }
    ensures roots { map (λ k. k.root) trees.new ≡ map (λ k. k.root) trees.old }
    ensures lengths { map (λ k. k.file_length) trees.new ≡ map (λ k. k.file_length) trees.old }
{
    for hint in hints.iter() {
        if let LentHint::Proof(key, digests) = hint {
            take_proof(alloc, trees, roots, &key, digests)?;
        }
    }
    Ok(())
}

/// The tree of a proof's root takes it, where there is one and it can. Errors: out of memory, and then nothing
/// has changed.
fn take_proof<H: NodeHash>(
    alloc: Global,
    trees: &mut [SparseTree<H>],
    roots: &Roots,
    key: &HashKey,
    digests: &[Hash32],
) -> Result<(), AllocError>
    requires numbered { AreNumbered (map (λ k. k.root) trees.old) roots.now.trees }
    ensures taken { OnOk result (TakeProof H.digest key.now digests.now trees.old trees.new) }
    ensures refused { IfErr result (λ _. trees.new ≡ trees.old) }
    ensures roots { map (λ k. k.root) trees.new ≡ map (λ k. k.root) trees.old }
    ensures lengths { map (λ k. k.file_length) trees.new ≡ map (λ k. k.file_length) trees.old }
{
    match roots.tree_of(&key.root) {
        Some(number) => take_where_acceptable(alloc, &mut trees[number as usize], key, digests),
        None => Ok(()),
    }
}

/// A tree takes a proof of its root, where it can. Errors: out of memory, and then nothing has changed.
fn take_where_acceptable<H: NodeHash>(
    alloc: Global,
    tree: &mut SparseTree<H>,
    key: &HashKey,
    digests: &[Hash32],
) -> Result<(), AllocError>
    requires root { tree.old.root ≡ key.now.root }
    ensures taken { OnOk result (TakesProof H.digest tree.old key.now digests.now tree.new) }
    ensures refused { IfErr result (λ _. tree.new ≡ tree.old) }
    ensures root { tree.new.root ≡ tree.old.root }
    ensures length { tree.new.file_length ≡ tree.old.file_length }
{
    let claim = match to_claim(alloc, key, digests.as_flattened()) {
        Ok(claim) => claim,
        Err(fault) => return passed_unless_memory(fault),
    };
    match tree.accept(&claim) {
        Ok(_) => Ok(()),
        Err(fault) => passed_unless_memory(fault),
    }
}

/// A proof that is refused is passed, unless memory was.
fn passed_unless_memory(fault: ProofError) -> Result<(), AllocError>
    ensures passed { OnOk result (fault ≢ ProofError.OutOfMemory) }
    ensures memory { IfErr result (λ _. fault ≡ ProofError.OutOfMemory) }
{
    match fault {
        ProofError::OutOfMemory => Err(AllocError),
        _ => Ok(()),
    }
}
