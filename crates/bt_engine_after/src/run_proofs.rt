//! The proofs that are left for a log of blocks that were claimed together: one for each run that begins
//! among them and is as long as a run of a key may be.
ghost use Rattle.std.specs.Prelude.{◌≡◌, ◌+◌, ◌%◌, ◌^◌, ◌<◌, ◌≤◌, ◌==◌, List, All, Contains, IfOk, min, length};
ghost use Rattle.std.specs.List.{AllZip, range_with_len};
ghost use Rattle.bt_tree.specs.Limits.{max_block_count, max_height};
ghost use Rattle.bt_sparse.specs.Answer.{HasRoom};
ghost use Rattle.bt_hashreq.specs.Request.{max_run_height, planned_key};
ghost use Rattle.bt_machine.specs.Hints.{add_hint, add_hints};
ghost use Rattle.bt_machine.specs.ProofKeys.{HasAnswer};
ghost use Rattle.bt_machine.specs.Adopting.{run_starts, IsProof};
ghost use Rattle.bt_engine_after.specs.RunProofsSteps.{run_keys, HoldsAnswer};

use crate::marks::FileRun;
use bt_engine_state::Pending;
use bt_hashreq::{HashKey, MAX_RUN_HEIGHT};
use bt_resume::Hint;
use bt_sparse::{Digests, SparseTree};
use bt_tree::{Hash32, NodeHash, heights_are_least};
use std::alloc::{AllocError, Global};

/// Whether a run begins at a block, below a node of layer `anchor`.
fn begins_run(block: u32, anchor: u32) -> bool
    ensures { result ≡ (block % 2 ^ min anchor max_run_height == 0) }
{
    block % (1 << anchor.min(MAX_RUN_HEIGHT)) == 0
}

/// The key of the run of a block.
fn run_key<H: NodeHash>(tree: &SparseTree<H>, block: u32, anchor: u32) -> HashKey
    requires { 0 < anchor }
    ensures { result ≡ planned_key tree.now block anchor }
{
    let run = 1 << anchor.min(MAX_RUN_HEIGHT);
    HashKey {
        root: tree.root(),
        base: 0,
        index: block / run * run,
        length: run,
        layers: anchor - 1,
    }
}

/// Memory for the digests of each proof of a group. Errors: out of memory.
pub(crate) fn proof_rooms(
    alloc: Global,
    group: FileRun,
    anchor: u32,
) -> Result<Vec<Vec<Hash32>>, AllocError>
    requires above { 0 < anchor }
    requires high { anchor ≤ max_height }
    requires inside { group.first + group.count ≤ max_block_count }
    ensures count { IfOk result (λ rooms. length rooms.items
        ≡ length (run_starts anchor (range_with_len group.first group.count))) }
    ensures rooms { IfOk result (λ rooms. All (λ room. HoldsAnswer anchor room.items) rooms.items) }
{
    let mut rooms = Vec::new(alloc);
    for offset in 0..group.count {
        if begins_run(group.first + offset, anchor) {
            rooms.push(proof_room(alloc, anchor)?)?;
        }
    }
    Ok(rooms)
}

/// Memory for the digests of a proof. Errors: out of memory.
fn proof_room(alloc: Global, anchor: u32) -> Result<Vec<Hash32>, AllocError>
    requires above { 0 < anchor }
    requires high { anchor ≤ max_height }
    ensures { IfOk result (λ room. HoldsAnswer anchor room.items) }
{
    heights_are_least();
    let height = anchor.min(MAX_RUN_HEIGHT);
    let size = (1u32 << height) + (anchor - height);
    Ok(vec![in alloc; [0; 32]; size as usize]?)
}

/// Leaves the proofs of a group, as the tree answers their keys. Takes no memory.
pub(crate) fn push_proofs<H: NodeHash>(
    tree: &SparseTree<H>,
    group: FileRun,
    anchor: u32,
    mut rooms: Vec<Vec<Hash32>>,
    pending: &mut Pending,
)
    requires above { 0 < anchor }
    requires high { anchor ≤ max_height }
    requires inside { group.first + group.count ≤ max_block_count }
    requires count { length rooms.items
        ≡ length (run_starts anchor (range_with_len group.first group.count)) }
    requires rooms { All (λ room. HoldsAnswer anchor room.items) rooms.items }
    requires answered { (key : HashKey)
        → Contains (run_keys tree.now anchor (range_with_len group.first group.count)) key
        → HasAnswer H.digest tree.now key }
    requires room { length rooms.items ≤ pending.old.room }
    ensures proofs { (proofs : List Hint)
        × AllZip (IsProof H.digest tree.now)
        (run_keys tree.now anchor (range_with_len group.first group.count)) proofs
        × (pending.new.hints ≡ add_hints pending.old.hints proofs) }
    ensures room { pending.old.room ≤ pending.new.room + length rooms.items }
{
    for offset in 0..group.count {
        let block = group.first + offset;
        if begins_run(block, anchor) {
            push_proof(tree, run_key(tree, block, anchor), &mut rooms, pending);
        }
    }
}

/// Leaves the proof by a key, with its digests in the last of the rooms.
fn push_proof<H: NodeHash>(
    tree: &SparseTree<H>,
    key: HashKey,
    rooms: &mut Vec<Vec<Hash32>>,
    pending: &mut Pending,
)
    requires answered { HasAnswer H.digest tree.now key }
    requires base { key.base ≤ max_height }
    requires layers { key.layers ≤ max_height }
    requires some { 0 < length rooms.old.items }
    requires rooms { All (λ room. HasRoom key.length key.layers room.items) rooms.old.items }
    requires room { 0 < pending.old.room }
    ensures proof { (proof : Hint) × IsProof H.digest tree.now key proof
        × (pending.new.hints ≡ add_hint pending.old.hints proof) }
    ensures room { pending.old.room ≤ pending.new.room + 1 }
    ensures fewer { length rooms.new.items + 1 ≡ length rooms.old.items }
    ensures rooms { All (λ room. HasRoom key.length key.layers room.items) rooms.new.items }
{
    let Some(mut digests) = rooms.pop() else {
        unreachable!();
    };
    tree.answer_into(key.base, key.index, key.length, key.layers, &mut digests)
        .unwrap();
    pending.push(Hint::Proof(key, Digests::new(digests)));
}
