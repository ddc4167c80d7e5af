//! A piece message (BEP 3): bytes that are all of a block that the peer is asked for are given to the file's
//! store, and any others are stale.
ghost use Rattle.std.specs.Prelude.{[], ◌≡◌, ◌<◌, ◌≤◌, Some, None, length};
ghost use Rattle.bt_wire.specs.declared.event.WireEvent.TheVariants.{Message as message_event};
ghost use Rattle.bt_wire.specs.declared.message.Message.TheVariants.{Piece};
ghost use Rattle.bt_machine.specs.State.{PeerState};
ghost use Rattle.bt_machine.specs.Arrival.{HasPutEffect};
ghost use Rattle.bt_machine.specs.Blocks.{state_at};
ghost use Rattle.bt_engine_state.specs.Parts.{state_of};
ghost use Rattle.bt_engine_state.specs.Handling.{AreInShape, AreInShapeAt, KeepsLog, KeepsKeys};
ghost use Rattle.bt_engine_messages.specs.Outcome.{IsHandled, effect_of, cancels_to, note_count, proof_in};
ghost use Rattle.bt_engine_messages.specs.PieceSteps.{CanPut, IsBlockOf, IsOfMissing, PutsBlock, PutsInSlot, state_after};

use crate::outcome::{Outcome, Reply};
use crate::spans::block_of;
use arrayvec::ArrayVec;
use bt_book::{BlockId, MAX_ASKERS, PeerKey};
use bt_disk::Disk;
use bt_engine_state::{Parts, Slot, follow_block};
use bt_machine::{Note, Why};
use bt_sparse::SparseTree;
use bt_store::{BlockState, Put, StoreError};
use bt_tree::NodeHash;
use bt_wire::Ask;

/// Takes bytes of a piece, from the byte `begin` on, that come from the peer at `index`: where they are all
/// of a block that it is asked for, they are put into the file's store, and it is asked for it no more; once
/// they are stored, nobody is (`Reply::Stored`). Bytes of any other range are stale.
pub fn take_piece<D: Disk + Drop, H: NodeHash>(
    parts: &mut Parts<D, H>,
    index: usize,
    piece: u32,
    begin: u32,
    bytes: &[u8],
) -> Outcome
    requires { AreInShapeAt parts.old index }
    ensures takes { IsHandled D.conduct H.digest parts.old index
        (message_event (Piece piece begin bytes.now)) result parts.new }
    ensures few { note_count result ≤ 1 }
    ensures rest { KeepsLog parts.old parts.new }
    ensures keys { KeepsKeys parts.old parts.new }
{
    let Some(block) = block_of(&parts.torrent, piece, begin, bytes) else {
        return Outcome::Stays(Reply::Noted(Note::Stale), None);
    };
    let peer = &mut parts.peers[index];
    parts.book.keeps_laws();
    if !parts.book.came(peer.key, block) {
        return Outcome::Stays(Reply::Noted(Note::Stale), None);
    }
    peer.payload = peer.payload.saturating_add(bytes.len() as u64);
    let ask = Ask {
        piece,
        begin,
        length: bytes.len() as u32,
    };
    put_block(parts, block, ask, bytes)
}

/// Puts a missing block, which came as this range, into the store of its file, and says what became of it.
/// Where it is stored, nobody is asked for it any longer.
fn put_block<D: Disk + Drop, H: NodeHash>(
    parts: &mut Parts<D, H>,
    block: BlockId,
    ask: Ask,
    bytes: &[u8],
) -> Outcome
    requires sound { AreInShape parts.old }
    requires missing { state_at (state_of parts.old) block ≡ Some BlockState.Missing }
    requires whole { IsBlockOf parts.old.torrent block bytes.now }
    ensures puts { PutsBlock D.conduct H.digest parts.old block ask bytes.now result
        parts.new }
    ensures no_proof { proof_in result ≡ None }
    ensures few { note_count result ≤ 1 }
    ensures rest { KeepsLog parts.old parts.new }
    ensures peers { parts.new.peers ≡ parts.old.peers }
{
    let answer = put_in_slot(&mut parts.slots, &parts.trees, block, bytes);
    let others = parts.book.asked(block);
    follow_block(
        &parts.torrent,
        &mut parts.book,
        &mut parts.counts,
        block,
        BlockState::Missing,
        state_after(answer),
    );
    outcome_of(answer, block, ask, others)
}

/// Puts a missing block, of which these are all bytes, into the store of its file.
fn put_in_slot<D: Disk + Drop, H: NodeHash>(
    slots: &mut [Slot<D, H>],
    trees: &[SparseTree<H>],
    block: BlockId,
    bytes: &[u8],
) -> Result<Put, StoreError>
    requires inside { block.file < length slots.old }
    requires can { CanPut slots.old trees.now block bytes.now }
    ensures { PutsInSlot D.conduct H.digest slots.old trees.now block bytes.now result
        slots.new }
{
    let slot = &mut slots[block.file as usize];
    let Some(store) = &mut slot.store else {
        unreachable!();
    };
    let tree = &trees[slot.tree as usize];
    store.put(tree, block.block, bytes)
}

/// The state of a missing block of which all bytes came, by what its store answered.
fn state_after(answer: Result<Put, StoreError>) -> BlockState
    ensures { result ≡ state_after answer }
{
    match answer {
        Ok(Put::Marked) => BlockState::Marked,
        Ok(Put::Waiting) => BlockState::Waiting,
        Ok(Put::Already) => BlockState::Missing,
        Ok(Put::Wrong) => BlockState::Missing,
        Err(_) => BlockState::Missing,
    }
}

/// What a missing block comes to of which all bytes came, by what its store answered.
fn outcome_of(
    answer: Result<Put, StoreError>,
    block: BlockId,
    ask: Ask,
    others: ArrayVec<PeerKey, MAX_ASKERS>,
) -> Outcome
    requires { IsOfMissing answer }
    ensures effect { (p : PeerState) → HasPutEffect block (cancels_to ask others.items) answer
        (effect_of p result []) }
    ensures no_proof { proof_in result ≡ None }
    ensures few { note_count result ≤ 1 }
{
    match answer {
        Ok(Put::Marked) => Outcome::Stays(Reply::Stored(Note::Marked(block), ask, others), None),
        Ok(Put::Waiting) => Outcome::Stays(Reply::Stored(Note::Waiting(block), ask, others), None),
        Ok(Put::Wrong) => Outcome::Closed(Why::WrongBlock),
        Ok(Put::Already) => unreachable!(),
        Err(StoreError::Range) => unreachable!(),
        Err(StoreError::Device) => Outcome::Stays(Reply::Noted(Note::Device(block.file)), None),
    }
}
