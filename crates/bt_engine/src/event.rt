//! A wire event of a peer: what it does by itself, and what follows from it.
ghost use Rattle.std.specs.Prelude.{◌≡◌, ◌+◌, ◌≤◌, ◌++◌, ℕ, Some, IfOk, IfErr, IfSome, length, vec_len, vec_capacity};
ghost use Rattle.bt_book.specs.Book.{max_askers};
ghost use Rattle.bt_resume.specs.Hint.{CanBeRead};
ghost use Rattle.bt_machine.specs.State.{EngineState, PeerState};
ghost use Rattle.bt_machine.specs.Devices.{DeviceCalls, HaveCalls};
ghost use Rattle.bt_machine.specs.Next.{without_peer};
ghost use Rattle.bt_machine.specs.Orderly.{IsOrderly};
ghost use Rattle.bt_engine_state.specs.Parts.{state_of, disks_of};
ghost use Rattle.bt_engine_state.specs.Handling.{IsTiedAt, AreInShapeAt, KeepsLog, KeepsDevices, KeepsWritten};
ghost use Rattle.bt_engine_messages.specs.Outcome.{sent_by, notes_in, note_count, reply_count, cancels_to, IsHandled};
ghost use Rattle.bt_engine_messages.specs.Peer.{KnowsPieces};
ghost use Rattle.bt_engine.specs.NewsSteps.{TellMarks};
ghost use Rattle.bt_engine.specs.RoomSteps.{IsNoteBound, HasRoom, HasRoomFor};
ghost use Rattle.bt_engine.specs.PendingSteps.{HasHintRoom};
ghost use Rattle.bt_engine.specs.EventSteps.{FollowsReply, GoesOn, closed_output};

use crate::news::{announce_pieces, note_complete_files};
use crate::pending::record_hints;
use crate::room::{EventLists, reserve};
use bt_book::PeerKey;
use bt_disk::Disk;
use bt_engine_after::follow_up;
use bt_engine_messages::{
    Outcome, Reply, take_hash_request, take_hashes, take_peer_event, take_piece, take_request,
};
use bt_engine_state::Parts;
use bt_machine::{Frame, Note, Output, Why};
use bt_resume::Hint;
use bt_tree::NodeHash;
use bt_wire::{Ask, Message, WireEvent};
use std::alloc::{AllocError, Global};

/// Takes an event that came from the peer at `index`, to the end. Errors: out of memory; nothing changed
/// then, but that there may be more room for hints.
pub(crate) fn take_event<D: Disk + Drop, H: NodeHash>(
    alloc: Global,
    parts: &mut Parts<D, H>,
    index: usize,
    event: &WireEvent,
) -> Result<Output, AllocError>
    requires peer { AreInShapeAt parts.old index }
    requires orderly { IsOrderly (state_of parts.old) }
    ensures step { IfOk result (λ out. (calls : DeviceCalls)
        × HaveCalls D.conduct (disks_of parts.old) calls (disks_of parts.new)
        × GoesOn H.digest index event.now calls out (state_of parts.old) (state_of parts.new)) }
    ensures state { IfErr result (λ _. state_of parts.new ≡ state_of parts.old) }
    ensures devices { IfErr result (λ _. disks_of parts.new ≡ disks_of parts.old) }
    ensures peers { IfErr result (λ _. parts.new.peers ≡ parts.old.peers) }
    ensures rest { KeepsWritten parts.old parts.new }
{
    let room = reserve(alloc, parts, event)?;
    take_in_room(alloc, parts, index, event, room)
}

/// Takes an event that came from the peer at `index`, to the end, where there is room for what it sends, notes
/// and leaves for the log. Errors: out of memory; nothing changed then.
fn take_in_room<D: Disk + Drop, H: NodeHash>(
    alloc: Global,
    parts: &mut Parts<D, H>,
    index: usize,
    event: &WireEvent,
    room: EventLists,
) -> Result<Output, AllocError>
    requires peer { AreInShapeAt parts.old index }
    requires orderly { IsOrderly (state_of parts.old) }
    requires room { HasRoomFor parts.old event.now room }
    ensures step { IfOk result (λ out. (calls : DeviceCalls)
        × HaveCalls D.conduct (disks_of parts.old) calls (disks_of parts.new)
        × GoesOn H.digest index event.now calls out (state_of parts.old) (state_of parts.new)) }
    ensures kept { IfErr result (λ _. parts.new ≡ parts.old) }
    ensures rest { KeepsWritten parts.old parts.new }
{
    // What every torrent keeps to.
    parts.torrent.keeps_laws();
    match handle(alloc, parts, index, event)? {
        Outcome::Closed(why) => Ok(close(alloc, parts, index, why)),
        Outcome::Stays(reply, proof) => Ok(keep(parts, index, reply, proof, room)),
    }
}

/// Closes the peer at an index for a reason.
pub(crate) fn close<D: Disk + Drop, H: NodeHash>(
    alloc: Global,
    parts: &mut Parts<D, H>,
    index: usize,
    why: Why,
) -> Output
    requires { IsTiedAt parts.old index }
    ensures is { result ≡ closed_output why }
    ensures gone { state_of parts.new ≡ without_peer index (state_of parts.old) }
    ensures rest { KeepsDevices parts.old parts.new }
{
    drop_peer(parts, index);
    Output {
        send: Vec::new(alloc),
        close: Some(why),
        notes: Vec::new(alloc),
    }
}

/// Lets the peer at an index go. What it was asked for may be asked of others.
pub(crate) fn drop_peer<D: Disk + Drop, H: NodeHash>(parts: &mut Parts<D, H>, index: usize)
    requires { IsTiedAt parts.old index }
    ensures gone { state_of parts.new ≡ without_peer index (state_of parts.old) }
    ensures rest { KeepsDevices parts.old parts.new }
{
    let key = parts.peers[index].key;
    let _ = bt_engine_state::lost(parts, key);
}

/// What follows where the peer at an index stays: it is sent its answer, or others cancels of the block that
/// it sent; all are sent haves of the pieces that have become whole; the proof and the marks wait for the
/// log; and then the peer is sent what follows for it.
fn keep<D: Disk + Drop, H: NodeHash>(
    parts: &mut Parts<D, H>,
    index: usize,
    reply: Reply,
    proof: Option<Hint>,
    room: EventLists,
) -> Output
    requires peer { AreInShapeAt parts.old index }
    requires told { (old : EngineState) × TellMarks old (state_of parts.old) (notes_in reply) }
    requires room { (bound : ℕ) × (reply_count reply ≤ bound)
        × HasRoom bound (length parts.old.peers.items) room × HasHintRoom
        (bound + 1) parts.old.log }
    requires readable { IfSome proof CanBeRead }
    ensures follows { FollowsReply H.digest (state_of parts.old) index reply proof result
        (state_of parts.new) }
    ensures devices { disks_of parts.new ≡ disks_of parts.old }
    ensures rest { KeepsWritten parts.old parts.new }
{
    // What every torrent keeps to.
    parts.torrent.keeps_laws();
    let EventLists {
        mut send,
        mut notes,
    } = room;
    let key = parts.peers[index].key;
    put_reply(key, reply, &mut send, &mut notes);
    announce_pieces(parts, notes.as_slice(), &mut send);
    note_complete_files(parts, &mut notes);
    record_hints(parts, proof, &notes);
    follow_up(parts, index, &mut send);
    Output {
        send,
        close: None,
        notes,
    }
}

/// Adds what an event sends and notes by itself, for which there is room.
fn put_reply(key: PeerKey, reply: Reply, send: &mut Vec<(PeerKey, Frame)>, notes: &mut Vec<Note>)
    requires send_room { vec_len send.old + max_askers ≤ vec_capacity send.old }
    requires note_room { vec_len notes.old + reply_count reply ≤ vec_capacity notes.old }
    ensures sent { (p : PeerState) → p.key ≡ key → send.new.items ≡ send.old.items
        ++ sent_by p reply }
    ensures noted { notes.new.items ≡ notes.old.items ++ notes_in reply }
    ensures few_sent { vec_len send.new ≤ vec_len send.old + max_askers }
    ensures few_noted { vec_len notes.new ≡ vec_len notes.old + reply_count reply }
    ensures send_capacity { vec_capacity send.old ≤ vec_capacity send.new }
    ensures note_capacity { vec_capacity notes.old ≤ vec_capacity notes.new }
{
    match reply {
        Reply::Nothing => {}
        Reply::Sends(message) => send.push((key, Frame::Message(message))).unwrap(),
        Reply::Noted(note) => notes.push(note).unwrap(),
        Reply::Stored(note, ask, others) => {
            cancel(ask, others.as_slice(), send);
            notes.push(note).unwrap()
        }
        Reply::Settled(settled) => notes.extend_from_slice(settled.as_slice()).unwrap(),
    }
}

/// Sends a cancel of the range to each of these peers.
fn cancel(ask: Ask, others: &[PeerKey], send: &mut Vec<(PeerKey, Frame)>)
    requires room { vec_len send.old + length others.now ≤ vec_capacity send.old }
    ensures sent { send.new.items ≡ send.old.items ++ cancels_to ask others.now }
    ensures few { vec_len send.new ≤ vec_len send.old + length others.now }
    ensures capacity { vec_capacity send.old ≤ vec_capacity send.new }
{
    for other in others {
        send.push((*other, Frame::Message(Message::Cancel(ask))))
            .unwrap();
    }
}

/// What the event does by itself. Errors: out of memory; nothing changed then.
fn handle<D: Disk + Drop, H: NodeHash>(
    alloc: Global,
    parts: &mut Parts<D, H>,
    index: usize,
    event: &WireEvent,
) -> Result<Outcome, AllocError>
    requires peer { AreInShapeAt parts.old index }
    requires pieces { KnowsPieces parts.old.torrent parts.old.peers.items index }
    ensures handled { IfOk result (λ outcome. IsHandled D.conduct H.digest
        parts.old index event.now outcome parts.new) }
    ensures few { IfOk result (λ outcome. (bound : ℕ) → IsNoteBound parts.old event.now bound
        → note_count outcome ≤ bound) }
    ensures kept { IfErr result (λ _. parts.new ≡ parts.old) }
    ensures rest { KeepsLog parts.old parts.new }
{
    match event {
        WireEvent::Message(message) => match message {
            Message::Request(ask) => take_request(alloc, parts, index, *ask),
            Message::Piece {
                piece,
                begin,
                bytes,
            } => Ok(take_piece(parts, index, *piece, *begin, bytes.as_slice())),
            Message::HashRequest(key) => {
                let message = take_hash_request(alloc, parts, key)?;
                Ok(Outcome::Stays(Reply::Sends(message), None))
            }
            Message::Hashes(key, digests) => {
                take_hashes(alloc, parts, index, key, digests.as_slice())
            }
            _ => Ok(take_peer_event(parts, index, event)),
        },
        _ => Ok(take_peer_event(parts, index, event)),
    }
}
