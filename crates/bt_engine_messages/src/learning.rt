//! Hashes that come are refused, and close their peer, or the tree of their root takes them and the blocks
//! that waited for them are settled.
ghost use Rattle.std.specs.Prelude.{◌≡◌, ◌≢◌, ◌≤◌, ◌<◌, ℕ, IfOk, IfErr, false, length, map};
ghost use Rattle.bt_meta.specs.Limits.{max_file_count};
ghost use Rattle.bt_machine.specs.HashMessages.{settled_count};
ghost use Rattle.bt_engine_state.specs.Parts.{file_of};
ghost use Rattle.bt_engine_state.specs.Roots.{AreNumbered, LeadThrough};
ghost use Rattle.bt_engine_state.specs.Ties.{NoneWaits};
ghost use Rattle.bt_engine_messages.specs.NoteRooms.{note_count};
ghost use Rattle.bt_engine_messages.specs.LearningSteps.{FitLengths, IsRoomFor, ChangesByHashes};

use crate::hints::hint_if_added;
use crate::runs::{room_for, settle_slots};
use bt_disk::Disk;
use bt_engine_state::{Roots, Slot};
use bt_hashreq::{HashKey, to_claim};
use bt_machine::{Note, Why};
use bt_resume::Hint;
use bt_sparse::{ProofError, SparseTree};
use bt_tree::NodeHash;
use std::alloc::{AllocError, Global};

/// What hashes that came come to.
#[derive(Debug, Drop)]
pub(crate) enum Learnt {
    /// The hashes are refused, and the peer is closed.
    Refused(Why),
    /// The tree of the hashes' root knows them, and this became of the blocks that waited for them. With a log,
    /// where they added a node to the tree, the hint that it is to keep of them.
    Settled(Vec<Note>, Option<Hint>),
}

/// The tree of their root learns hashes that come, and then the blocks of their run are settled in every file
/// of the root, if any block waits (`waits`). Where they added a node to the tree, their hint is given back, if
/// there is one. All room is made first. Errors: out of memory, and nothing changes then.
pub(crate) fn learn_hashes<D: Disk + Drop, H: NodeHash>(
    alloc: Global,
    slots: &mut [Slot<D, H>],
    trees: &mut [SparseTree<H>],
    roots: &Roots,
    key: &HashKey,
    digests: &[u8],
    hint: Option<Hint>,
    waits: bool,
) -> Result<Learnt, AllocError>
    requires numbered { AreNumbered (map (λ k. k.root) trees.old) roots.now.trees }
    requires lead { (tree : ℕ) → tree < length trees.old → LeadThrough slots.old roots.now tree }
    requires idle { waits ≡ false → NoneWaits (map file_of slots.old) }
    requires fit { FitLengths trees.old slots.old }
    requires files { length slots.old ≤ max_file_count }
    ensures changes { IfOk result (λ learnt. ChangesByHashes D.conduct H.digest
        key.now digests.now hint trees.old slots.old learnt trees.new slots.new) }
    ensures few { IfOk result (λ learnt.
        (room : ℕ) → IsRoomFor trees.old slots.old key.now room → note_count learnt ≤ room) }
    ensures trees { IfErr result (λ _. trees.new ≡ trees.old) }
    ensures slots { IfErr result (λ _. slots.new ≡ slots.old) }
{
    let Some(index) = roots.tree_of(&key.root) else {
        return Ok(Learnt::Refused(Why::UnknownRoot));
    };
    let index = index as usize;
    let claim = match to_claim(alloc, key, digests) {
        Ok(claim) => claim,
        Err(fault) => return refusal(fault),
    };
    let count = settled_count(key);
    let mut notes = Vec::with_capacity(alloc, room_for(slots, roots, index, count, waits))?;
    let tree = &mut trees[index];
    let added = match tree.accept(&claim) {
        Ok(added) => added,
        Err(fault) => return refusal(fault),
    };
    settle_slots(
        &mut notes, slots, roots, tree, index, key.index, count, waits,
    );
    Ok(Learnt::Settled(notes, hint_if_added(hint, added)))
}

/// How many blocks the hashes may have waited for: with leaves in the run, as many as it has.
pub(crate) fn settled_count(key: &HashKey) -> u32
    ensures value { result ≡ settled_count key.now }
    ensures few { result ≤ key.now.length }
{
    if key.base == 0 { key.length } else { 0 }
}

/// What hashes come to that are refused.
fn refusal(fault: ProofError) -> Result<Learnt, AllocError>
    ensures ok { IfOk result (λ learnt. learnt ≡ Learnt.Refused (Why.Proof fault)) }
    ensures other { IfOk result (λ _. fault ≢ ProofError.OutOfMemory) }
    ensures memory { IfErr result (λ _. fault ≡ ProofError.OutOfMemory) }
{
    match fault {
        ProofError::OutOfMemory => Err(AllocError),
        _ => Ok(Learnt::Refused(Why::Proof(fault))),
    }
}
