//! A hash request (BEP 52) is answered with the digests that the tree of its root knows, or with a reject.
ghost use Rattle.std.specs.Prelude.{[], ◌≡◌, ℕ, IfOk};
ghost use Rattle.std.specs.List.{concat};
ghost use Rattle.bt_machine.specs.State.{PeerState};
ghost use Rattle.bt_machine.specs.Output.{sending};
ghost use Rattle.bt_machine.specs.HashMessages.{HandlesHashRequest};
ghost use Rattle.bt_machine.specs.WireEvents.{HandlesMessage};
ghost use Rattle.bt_engine_state.specs.Parts.{state_of};
ghost use Rattle.bt_engine_state.specs.Ties.{IsTied};
ghost use Rattle.bt_engine_messages.specs.HashRequestSteps.{answer_of, IsAnswerBy};

use bt_disk::Disk;
use bt_engine_state::Parts;
use bt_hashreq::HashKey;
use bt_sparse::{AnswerError, SparseTree};
use bt_tree::{Hash32, NodeHash};
use bt_wire::{Bytes, Message};
use std::alloc::{AllocError, Global};

/// The message that answers a hash request: the digests, or a reject where the tree of the root, if there is
/// one, does not know them all. Errors: out of memory.
pub fn take_hash_request<D: Disk + Drop, H: NodeHash>(
    alloc: Global,
    parts: &Parts<D, H>,
    key: &HashKey,
) -> Result<Message, AllocError>
    requires { IsTied parts.now }
    ensures { IfOk result (λ message. (i : ℕ) (p : PeerState) → HandlesMessage H.digest
        (state_of parts.now)
        i p (Message.HashRequest key.now) [] (sending p message) (state_of parts.now)) }
{
    match answer_hash_request(parts, key)? {
        Some(digests) => Ok(Message::Hashes(*key, joined(alloc, &digests)?)),
        None => Ok(Message::HashReject(*key)),
    }
}

/// The digests' bytes, one digest after the other.
fn joined(alloc: Global, digests: &[Hash32]) -> Result<Bytes, AllocError>
    ensures { IfOk result (λ bytes. bytes ≡ concat digests.now) }
{
    Ok(Bytes::new(digests.as_flattened().to_vec(alloc)?))
}

/// The digests that answer a hash request; None where no tree has them all, and the request is rejected.
fn answer_hash_request<D: Disk + Drop, H: NodeHash>(
    parts: &Parts<D, H>,
    key: &HashKey,
) -> Result<Option<Vec<Hash32>>, AllocError>
    requires { IsTied parts.now }
    ensures { IfOk result (λ digests. (p : PeerState) → HandlesHashRequest H.digest
        (state_of parts.now) p
        key.now (sending p (answer_of key.now digests))) }
{
    match parts.roots.tree_of(&key.root) {
        Some(index) => answer_by(&parts.trees[index as usize], key),
        None => Ok(None),
    }
}

/// What a tree answers.
fn answer_by<H: NodeHash>(
    tree: &SparseTree<H>,
    key: &HashKey,
) -> Result<Option<Vec<Hash32>>, AllocError>
    ensures { IfOk result (IsAnswerBy H.digest tree.now key.now) }
{
    if tree.root() != key.root {
        return Ok(None);
    }
    match tree.answer(key.base, key.index, key.length, key.layers) {
        Ok(digests) => Ok(Some(digests)),
        Err(AnswerError::Shape) => Ok(None),
        Err(AnswerError::Unknown) => Ok(None),
        Err(AnswerError::OutOfMemory) => Err(AllocError),
    }
}
