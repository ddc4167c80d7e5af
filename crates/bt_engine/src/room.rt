//! Room for what a wire event sends and notes. It is made before the event changes anything.
ghost use Rattle.std.specs.Prelude.{◌≡◌, ◌^◌, ◌≤◌, IfOk, IfErr};
ghost use Rattle.bt_machine.specs.Orderly.{IsOrderly};
ghost use Rattle.bt_engine_state.specs.Parts.{state_of, log_of};
ghost use Rattle.bt_engine_state.specs.Ties.{IsTied};
ghost use Rattle.bt_engine_state.specs.Handling.{AreInShape};
ghost use Rattle.bt_engine.specs.RoomSteps.{IsNoteBound, HasRoomFor};

use crate::pending::reserve_hints;
use bt_book::{MAX_ASKERS, PeerKey};
use bt_disk::Disk;
use bt_engine_after::MAX_FRAMES;
use bt_engine_messages::room_for_notes;
use bt_engine_state::Parts;
use bt_machine::{Frame, Note};
use bt_tree::NodeHash;
use bt_wire::{Message, WireEvent};
use std::alloc::{AllocError, Global};

/// Lists of what an event sends and notes.
#[derive(Debug, Drop)]
pub(crate) struct EventLists {
    pub send: Vec<(PeerKey, Frame)>,
    pub notes: Vec<Note>,
}

/// Makes room for whatever the event sends and notes, and no more: its answer or cancels, a have to each peer
/// that is there for each note, and what follows; its notes, and for each a complete file. With a log there
/// is room for its hints too: a proof, and a mark for each note. Errors: out of memory, and then nothing has
/// changed.
pub(crate) fn reserve<D: Disk + Drop, H: NodeHash>(
    alloc: Global,
    parts: &mut Parts<D, H>,
    event: &WireEvent,
) -> Result<EventLists, AllocError>
    requires sound { AreInShape parts.old }
    requires orderly { IsOrderly (state_of parts.old) }
    ensures room { IfOk result (HasRoomFor parts.new event.now) }
    ensures kept { IfErr result (λ _. parts.new ≡ parts.old) }
    ensures state { state_of parts.new ≡ state_of parts.old }
    ensures log { log_of parts.new ≡ log_of parts.old }
    ensures others { parts.new ≡ record parts.old { log = parts.new.log } }
    ensures tied { IsTied parts.new }
{
    let bound = note_bound(parts, event);
    let peers = parts.peers.as_slice().len();
    let send = Vec::with_capacity(alloc, bound * peers + MAX_ASKERS + MAX_FRAMES)?;
    let notes = Vec::with_capacity(alloc, 2 * bound)?;
    reserve_hints(parts, bound + 1)?;
    Ok(EventLists { send, notes })
}

/// How many notes the event has at most, without those of complete files.
fn note_bound<D: Disk + Drop, H: NodeHash>(parts: &Parts<D, H>, event: &WireEvent) -> usize
    requires { AreInShape parts.now }
    ensures bound { IsNoteBound parts.now event.now result }
    ensures small { result ≤ 2 ^ 26 }
{
    match event {
        WireEvent::Message(message) => match message {
            Message::Request(_) => 1,
            Message::Piece { .. } => 1,
            Message::Hashes(key, _) => room_for_notes(parts, key),
            _ => 0,
        },
        _ => 0,
    }
}
