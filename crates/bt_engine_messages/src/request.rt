//! Requests for a range of a piece (BEP 3): which are ignored, which close their peer, and which are served.
//! A block that is found damaged is missing from then on.
ghost use Rattle.std.specs.Prelude.{◌≡◌, ◌≢◌, ◌<◌, ◌≤◌, IfErr, IfOk, Some, length};
ghost use Rattle.std.specs.Bool.{OnFalse, OnTrue};
ghost use Rattle.bt_wire.specs.declared.event.WireEvent.TheVariants.{Message as message_event};
ghost use Rattle.bt_machine.specs.Blocks.{block_id, state_at};
ghost use Rattle.bt_machine.specs.Request.{AreMarked};
ghost use Rattle.bt_engine_state.specs.Parts.{state_of};
ghost use Rattle.bt_engine_state.specs.Handling.{AreInShapeAt, KeepsLog, KeepsKeys};
ghost use Rattle.bt_engine_messages.specs.Outcome.{IsHandled, note_count};
ghost use Rattle.bt_engine_messages.specs.Request.{IsToServe};
ghost use Rattle.bt_engine_messages.specs.RequestSteps.{CanRead, IsLookedAt, SendsFromSlot, StopsInSlot};
ghost use Rattle.bt_engine_messages.specs.ServingSteps.{IsRoomFor};
ghost use Rattle.bt_engine_messages.specs.SpansSteps.{IsShortSpan};

use crate::outcome::{Outcome, Reply};
use crate::serving::{ReadFault, SpanBuffers, read_span, room_for};
use crate::spans::{first_block, last_block, place_of};
use bt_book::BlockId;
use bt_disk::Disk;
use bt_engine_state::{Parts, Slot, follow_block};
use bt_machine::{Note, Why};
use bt_meta::Span;
use bt_sparse::SparseTree;
use bt_store::BlockState;
use bt_tree::NodeHash;
use bt_wire::{Ask, Bytes, Message};
use std::alloc::{AllocError, Global};

/// Serves a request of the peer at `index` for a range of a piece: it is ignored while we choke the peer and
/// where a block of the range is not marked, and closes the peer where the range does not lie in one file. Else
/// its bytes are sent, or a fault that is found is noted. Errors: out of memory, and then no block was read and
/// nothing has changed; memory is asked for only to serve.
pub fn take_request<D: Disk + Drop, H: NodeHash>(
    alloc: Global,
    parts: &mut Parts<D, H>,
    index: usize,
    ask: Ask,
) -> Result<Outcome, AllocError>
    requires { AreInShapeAt parts.old index }
    ensures takes { IfOk result (λ outcome. IsHandled D.conduct H.digest parts.old index
        (message_event (Message.Request ask)) outcome parts.new) }
    ensures few { IfOk result (λ outcome. note_count outcome ≤ 1) }
    ensures kept { IfErr result (λ _. parts.new ≡ parts.old) }
    ensures needed { IfErr result (λ _. IsToServe (state_of parts.old) index ask) }
    ensures rest { KeepsLog parts.old parts.new }
    ensures keys { KeepsKeys parts.old parts.new }
{
    if parts.peers[index].am_choking {
        return Ok(Outcome::Stays(Reply::Nothing, None));
    }
    let Some(span) = place_of(&parts.torrent, ask) else {
        return Ok(Outcome::Closed(Why::BadRequest));
    };
    if !are_marked(parts, span) {
        return Ok(Outcome::Stays(Reply::Nothing, None));
    }
    // It is made before the first read, so that a refusal leaves all as it was.
    let room = room_for(alloc, span)?;
    Ok(serve(parts, index, ask, span, room))
}

/// Reads the range that the peer at `index` asks for. What is found at a block that is not right stands then.
fn serve<D: Disk + Drop, H: NodeHash>(
    parts: &mut Parts<D, H>,
    index: usize,
    ask: Ask,
    span: Span,
    room: SpanBuffers,
) -> Outcome
    requires looked { IsLookedAt parts.old index ask span }
    requires short { IsShortSpan span }
    requires room { IsRoomFor span room }
    ensures takes { IsHandled D.conduct H.digest parts.old index
        (message_event (Message.Request ask)) result parts.new }
    ensures few { note_count result ≤ 1 }
    ensures rest { KeepsLog parts.old parts.new }
    ensures keys { KeepsKeys parts.old parts.new }
{
    match read_slot(&mut parts.slots, &parts.trees, span, room) {
        Ok(bytes) => {
            let peer = &mut parts.peers[index];
            peer.payload = peer.payload.saturating_add(span.length as u64);
            let message = Message::Piece {
                piece: ask.piece,
                begin: ask.begin,
                bytes: Bytes::new(bytes),
            };
            Outcome::Stays(Reply::Sends(message), None)
        }
        Err(ReadFault::Damaged(block)) => {
            let block = BlockId {
                file: span.file,
                block,
            };
            follow_block(
                &parts.torrent,
                &mut parts.book,
                &mut parts.counts,
                block,
                BlockState::Marked,
                BlockState::Missing,
            );
            Outcome::Stays(Reply::Noted(Note::Damaged(block)), None)
        }
        Err(ReadFault::Device) => Outcome::Stays(Reply::Noted(Note::Device(span.file)), None),
    }
}

/// Whether all blocks that a span lies in are marked.
fn are_marked<D: Disk + Drop, H: NodeHash>(parts: &Parts<D, H>, span: Span) -> bool
    requires { IsShortSpan span }
    ensures yes { OnTrue result (AreMarked (state_of parts.now) span) }
    ensures no { OnFalse result (¬ AreMarked (state_of parts.now) span) }
{
    is_marked(parts, span.file, first_block(span)) && is_marked(parts, span.file, last_block(span))
}

/// Whether a block of a file is marked.
fn is_marked<D: Disk + Drop, H: NodeHash>(parts: &Parts<D, H>, file: u32, block: u32) -> bool
    ensures yes { OnTrue result (state_at (state_of parts.now) (block_id file block)
        ≡ Some BlockState.Marked) }
    ensures no { OnFalse result (state_at (state_of parts.now) (block_id file block)
        ≢ Some BlockState.Marked) }
{
    let slots = parts.slots.as_slice();
    let Some(slot) = slots.get(file as usize) else {
        return false;
    };
    slot.state(block) == Some(BlockState::Marked)
}

/// Reads the blocks that a span lies in, all of them marked, and gives the bytes of the span. At the first
/// block that is not right it stops.
fn read_slot<D: Disk + Drop, H: NodeHash>(
    slots: &mut [Slot<D, H>],
    trees: &[SparseTree<H>],
    span: Span,
    room: SpanBuffers,
) -> Result<Vec<u8>, ReadFault>
    requires inside { span.file < length slots.old }
    requires short { IsShortSpan span }
    requires marked { CanRead slots.old trees.now span }
    requires room { IsRoomFor span room }
    ensures right { IfOk result (λ bytes. SendsFromSlot D.conduct H.digest slots.old
        trees.now span bytes.items slots.new) }
    ensures wrong { IfErr result (λ fault. StopsInSlot D.conduct H.digest slots.old
        trees.now span fault slots.new) }
{
    let slot = &mut slots[span.file as usize];
    let Some(store) = &mut slot.store else {
        unreachable!();
    };
    let tree = &trees[slot.tree as usize];
    read_span(store, tree, span, room)
}
