//! A peer that connects: it gets the next key and joins the request book, unless 64 peers are connected, keys
//! are spent or memory is refused.
ghost use Rattle.std.specs.Prelude.{◌≡◌, ◌+◌, ◌^◌, ◌<◌, false, length, replicate};
ghost use Rattle.bt_meta.specs.Torrent.{total_pieces};
ghost use Rattle.bt_book.specs.Book.{max_peers};
ghost use Rattle.bt_machine.specs.Orderly.{IsOrderly};
ghost use Rattle.bt_machine.specs.Peers.{StepConnect};
ghost use Rattle.bt_engine_state.specs.Connection.{peer_with, HasJoined, greeted};
ghost use Rattle.bt_engine_state.specs.Parts.{state_of};
ghost use Rattle.bt_engine_state.specs.Ties.{IsTied};
ghost use Rattle.bt_engine_state.specs.Handling.{KeepsDevices};

use crate::greeting::bitfield;
use crate::parts::Parts;
use crate::peer::Peer;
use crate::piece_set::PieceSet;
use bt_book::{MAX_PEERS, PeerKey};
use bt_disk::Disk;
use bt_machine::{ConnectError, HashState};
use bt_tree::NodeHash;
use bt_wire::{Bytes, Cutter};
use std::alloc::Global;

/// Connects a peer, and gives its key and the bitfield that it is to be sent.
///
/// Errors, the first that is met, which change nothing: `Full` where 64 peers are connected; `SerialsSpent` where
/// no key is left; out of memory.
pub fn connect<D: Disk + Drop, H: NodeHash>(
    alloc: Global,
    parts: &mut Parts<D, H>,
) -> Result<(PeerKey, Bytes), ConnectError>
    requires tied { IsTied parts.old }
    requires orderly { IsOrderly (state_of parts.old) }
    ensures step { StepConnect (state_of parts.old) (greeted (state_of parts.old) result)
        (state_of parts.new) }
    ensures rest { KeepsDevices parts.old parts.new }
{
    if parts.peers.len() >= MAX_PEERS {
        return Err(ConnectError::Full);
    }
    if parts.last_key == u64::MAX {
        return Err(ConnectError::SerialsSpent);
    }
    let Ok(bits) = bitfield(alloc, &parts.counts.unmarked) else {
        return Err(ConnectError::OutOfMemory);
    };
    let Ok(has) = PieceSet::new(alloc, parts.torrent.pieces()) else {
        return Err(ConnectError::OutOfMemory);
    };
    let key = join(alloc, parts, has);
    Ok((key, Bytes::new(bits)))
}

/// Takes in a peer of the next key, which has no piece.
fn join<D: Disk + Drop, H: NodeHash>(
    alloc: Global,
    parts: &mut Parts<D, H>,
    has: PieceSet,
) -> PeerKey
    requires tied { IsTied parts.old }
    requires orderly { IsOrderly (state_of parts.old) }
    requires room { length parts.old.peers.items < max_peers }
    requires key { parts.old.last_key + 1 < 2 ^ 64 }
    requires none { has ≡ replicate (total_pieces parts.old.torrent) false }
    ensures joined { HasJoined (state_of parts.old) result (state_of parts.new) }
    ensures rest { KeepsDevices parts.old parts.new }
{
    let key = PeerKey(parts.last_key + 1);
    parts.last_key += 1;
    parts.book.join(key);
    let _ = parts.peers.push(new_peer(alloc, key, has));
    key
}

/// A peer that has just come: both sides choke, and nobody is interested.
fn new_peer(alloc: Global, key: PeerKey, has: PieceSet) -> Peer
    ensures { result ≡ peer_with key has }
{
    Peer {
        key,
        cutter: Cutter::new(alloc),
        am_choking: true,
        am_interested: false,
        peer_choking: true,
        peer_interested: false,
        has,
        hash: HashState::Idle,
        payload: 0,
    }
}
