//! Wire events that change their peer alone, or nothing: handshakes, and messages that neither ask for data
//! or hashes nor bring them (BEP 3, BEP 52).
ghost use Rattle.std.specs.Prelude.{◌≡◌, ℕ, List, Some, length, slice_get};
ghost use Rattle.bt_meta.specs.Torrent.{total_pieces};
ghost use Rattle.bt_book.specs.Book.{asked_of, peers_of, KeepsOthers};
ghost use Rattle.bt_machine.specs.State.{EngineState, PeerState};
ghost use Rattle.bt_machine.specs.HashMessages.{Resolves};
ghost use Rattle.bt_engine_state.specs.Handling.{IsTiedAt, KeepsDevices};
ghost use Rattle.bt_engine_messages.specs.Peer.{IsPeerOf, KnowsPieces};
ghost use Rattle.bt_engine_messages.specs.Outcome.{IsHandled, note_count};
ghost use Rattle.bt_engine_messages.specs.Message.{IsOfPeer, IsPeerEvent, HandlesOfPeer, TakesMessage, TakesHave, TakesBitfield, asked_after};

use crate::hello::hello_fault;
use crate::outcome::{Outcome, Reply};
use bt_book::{Book, PeerKey};
use bt_disk::Disk;
use bt_engine_state::{Parts, Peer};
use bt_hashreq::HashKey;
use bt_machine::{HashState, Why};
use bt_tree::NodeHash;
use bt_wire::{Message, WireEvent};

/// Takes a wire event of the peer at `index` that changes this peer alone, or nothing: none of the messages
/// that ask for data or hashes, or bring them. No device is called, whatever gives the digests. A peer that it
/// closes is as it was.
pub fn take_peer_event<D: Disk + Drop, H: NodeHash>(
    parts: &mut Parts<D, H>,
    index: usize,
    event: &WireEvent,
) -> Outcome
    requires peer { IsTiedAt parts.old index }
    requires pieces { KnowsPieces parts.old.torrent parts.old.peers.items index }
    requires own { IsPeerEvent event.now }
    ensures takes { (dig : List ℕ → List ℕ)
        → IsHandled D.conduct dig parts.old index event.now result parts.new }
    ensures few { note_count result ≡ 0 }
    ensures rest { KeepsDevices parts.old parts.new }
{
    match fault_in(parts, index, event) {
        Some(why) => Outcome::Closed(why),
        None => Outcome::Stays(Reply::Nothing, None),
    }
}

/// Takes such an event, and says why it closes the peer, if it does.
fn fault_in<D: Disk + Drop, H: NodeHash>(
    parts: &mut Parts<D, H>,
    index: usize,
    event: &WireEvent,
) -> Option<Why>
    requires peer { IsTiedAt parts.old index }
    requires pieces { KnowsPieces parts.old.torrent parts.old.peers.items index }
    requires own { IsPeerEvent event.now }
    ensures step { HandlesOfPeer parts.old index event.now result parts.new }
    ensures rest { KeepsDevices parts.old parts.new }
{
    match event {
        WireEvent::Hello(handshake) => hello_fault(&parts.torrent, handshake),
        WireEvent::Message(message) => take_message(parts, index, message),
        WireEvent::Skipped(_) => None,
    }
}

/// Takes a message of a peer that changes its peer alone, or nothing; gives why the peer is closed, if it is.
fn take_message<D: Disk + Drop, H: NodeHash>(
    parts: &mut Parts<D, H>,
    index: usize,
    message: &Message,
) -> Option<Why>
    requires peer { IsTiedAt parts.old index }
    requires pieces { KnowsPieces parts.old.torrent parts.old.peers.items index }
    requires own { IsOfPeer message.now }
    ensures step { HandlesOfPeer parts.old index (WireEvent.Message message.now) result parts.new }
    ensures rest { KeepsDevices parts.old parts.new }
{
    let pieces = parts.torrent.pieces();
    let peer = &mut parts.peers[index];
    drop_asked(&mut parts.book, peer.key, message);
    change_peer(peer, message, pieces)
}

/// A peer that chokes us will send nothing of what it is asked for.
fn drop_asked(book: &mut Book, key: PeerKey, message: &Message)
    ensures asked { asked_of book.new key ≡ asked_after message.now (asked_of book.old key) }
    ensures others { KeepsOthers book.old book.new key }
    ensures wanted { book.new.wanted ≡ book.old.wanted }
    ensures peers { peers_of book.new ≡ peers_of book.old }
{
    if let Message::Choke = message {
        book.choked(key);
    }
}

/// Changes the peer as a message says that changes nothing else but what the book knows of it.
fn change_peer(peer: &mut Peer, message: &Message, pieces: u32) -> Option<Why>
    requires few { length peer.old.has ≡ pieces }
    requires own { IsOfPeer message.now }
    ensures takes { (dig : List ℕ → List ℕ) (s : EngineState) (i : ℕ) (p : PeerState)
        → slice_get s.peers i ≡ Some p → IsPeerOf p peer.old → total_pieces s.torrent ≡ pieces
        → TakesMessage dig s i p message.now peer.new result }
    ensures key { peer.new.key ≡ peer.old.key }
    ensures cutter { peer.new.cutter ≡ peer.old.cutter }
    ensures payload { peer.new.payload ≡ peer.old.payload }
{
    match message {
        Message::KeepAlive => None,
        Message::Choke => {
            peer.peer_choking = true;
            None
        }
        Message::Unchoke => {
            peer.peer_choking = false;
            None
        }
        Message::Interested => {
            peer.peer_interested = true;
            None
        }
        Message::NotInterested => {
            peer.peer_interested = false;
            None
        }
        Message::Have(piece) => take_have(peer, *piece, pieces),
        Message::Bitfield(bits) => take_bitfield(peer, bits.as_slice(), pieces),
        Message::Cancel(_) => None,
        Message::HashReject(key) => {
            peer.hash = resolved_hash_state(peer.hash, *key, HashState::Refused);
            None
        }
        _ => unreachable!(),
    }
}

/// The hash state of a peer that answers a request: the next one, where it is asked this one.
pub fn resolved_hash_state(hash: HashState, key: HashKey, next: HashState) -> HashState
    ensures { Resolves key next hash result }
{
    if hash == HashState::Asked(key) {
        next
    } else {
        hash
    }
}

/// Takes a have: the peer has one more piece, or names one that is not.
fn take_have(peer: &mut Peer, piece: u32, pieces: u32) -> Option<Why>
    requires { length peer.old.has ≡ pieces }
    ensures takes { (s : EngineState) (i : ℕ) (p : PeerState) → slice_get s.peers i ≡ Some p
        → IsPeerOf p peer.old → total_pieces s.torrent ≡ pieces
        → TakesHave s i p piece peer.new result }
    ensures others { peer.new ≡ record peer.old { has = peer.new.has } }
{
    if piece >= pieces {
        return Some(Why::BadPiece);
    }
    peer.has.insert(piece);
    None
}

/// Takes a bitfield: the peer has the pieces of which its bit says so. The bits after the last piece's say
/// nothing, but there are as many bytes as the pieces need.
fn take_bitfield(peer: &mut Peer, bytes: &[u8], pieces: u32) -> Option<Why>
    requires { length peer.old.has ≡ pieces }
    ensures takes { (s : EngineState) (i : ℕ) (p : PeerState) → slice_get s.peers i ≡ Some p
        → IsPeerOf p peer.old → total_pieces s.torrent ≡ pieces
        → TakesBitfield s i p bytes.now peer.new result }
    ensures others { peer.new ≡ record peer.old { has = peer.new.has } }
{
    if bytes.len() != pieces.div_ceil(8) as usize {
        return Some(Why::BadBitfield);
    }
    peer.has.fill(bytes);
    None
}
