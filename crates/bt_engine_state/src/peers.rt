//! Peers by their keys: where one stands, bytes that come from it, and its leaving.
ghost use Rattle.std.specs.Prelude.{◌≡◌, ◌<◌, ◌≤◌, IfSome, IfNone, OnErr, length, take, vec_len};
ghost use Rattle.bt_machine.specs.Orderly.{IsOrderly};
ghost use Rattle.bt_machine.specs.Peers.{StepFeed, StepLost};
ghost use Rattle.bt_engine_state.specs.Parts.{state_of, IsPeerAt, LacksPeer};
ghost use Rattle.bt_engine_state.specs.Ties.{IsTied};
ghost use Rattle.bt_engine_state.specs.Handling.{KeepsDevices};

use crate::parts::Parts;
use bt_book::PeerKey;
use bt_disk::Disk;
use bt_machine::EngineError;
use bt_tree::NodeHash;
use bt_wire::WireError;

/// Where the peer of a key stands, if it stands.
pub fn index_of<D: Disk + Drop, H: NodeHash>(parts: &Parts<D, H>, key: PeerKey) -> Option<usize>
    ensures some { IfSome result (IsPeerAt parts.now.peers.items key) }
    ensures inside { IfSome result (λ i. i < vec_len parts.now.peers) }
    ensures none { IfNone result (LacksPeer parts.now.peers.items key) }
{
    for (index, peer) in parts.peers.iter().enumerate() {
        if peer.key.0 == key.0 {
            return Some(index);
        }
    }
    None
}

/// Puts bytes after those of a peer that no event was taken from, all or none. Errors, which change nothing: no
/// peer has the key; out of memory.
pub fn feed<D: Disk + Drop, H: NodeHash>(
    parts: &mut Parts<D, H>,
    key: PeerKey,
    bytes: &[u8],
) -> Result<(), EngineError>
    requires tied { IsTied parts.old }
    requires orderly { IsOrderly (state_of parts.old) }
    ensures step { StepFeed (state_of parts.old) key bytes.now result (state_of parts.new) }
    ensures rest { KeepsDevices parts.old parts.new }
{
    let Some(index) = index_of(parts, key) else {
        return Err(EngineError::NoPeer);
    };
    let peer = &mut parts.peers[index];
    match peer.cutter.feed(bytes) {
        Ok(()) => Ok(()),
        Err(WireError::OutOfMemory) => Err(EngineError::OutOfMemory),
        // a peer whose stream showed a fault has gone
        Err(WireError::Failed) => unreachable!(),
        // the bytes are looked at when an event is taken
        Err(WireError::BadProtocol | WireError::TooLong | WireError::BadLength) => unreachable!(),
    }
}

/// Puts the first `count` bytes of a buffer after those of a peer that no event was taken from. The buffer
/// may be exchanged for another, which is not shorter. Errors, which change neither parts nor buffer: no peer has
/// the key; out of memory.
pub fn feed_buffer<D: Disk + Drop, H: NodeHash>(
    parts: &mut Parts<D, H>,
    key: PeerKey,
    buffer: &mut Vec<u8>,
    count: usize,
) -> Result<(), EngineError>
    requires tied { IsTied parts.old }
    requires orderly { IsOrderly (state_of parts.old) }
    requires within { count ≤ length buffer.old.items }
    ensures step { StepFeed (state_of parts.old) key (take count buffer.old.items) result
        (state_of parts.new) }
    ensures rest { KeepsDevices parts.old parts.new }
    ensures unchanged { OnErr result (buffer.new.items ≡ buffer.old.items) }
    ensures long { length buffer.old.items ≤ length buffer.new.items }
{
    let Some(index) = index_of(parts, key) else {
        return Err(EngineError::NoPeer);
    };
    let peer = &mut parts.peers[index];
    match peer.cutter.feed_buffer(buffer, count) {
        Ok(()) => Ok(()),
        Err(WireError::OutOfMemory) => Err(EngineError::OutOfMemory),
        // as in `feed`
        Err(WireError::Failed) => unreachable!(),
        Err(WireError::BadProtocol | WireError::TooLong | WireError::BadLength) => unreachable!(),
    }
}

/// Lets a peer go. What it was asked for may be asked of others. Errors: no peer has the key.
pub fn lost<D: Disk + Drop, H: NodeHash>(
    parts: &mut Parts<D, H>,
    key: PeerKey,
) -> Result<(), EngineError>
    requires { IsTied parts.old }
    ensures step { StepLost (state_of parts.old) key result (state_of parts.new) }
    ensures rest { KeepsDevices parts.old parts.new }
{
    let Some(index) = index_of(parts, key) else {
        return Err(EngineError::NoPeer);
    };
    parts.book.keeps_laws();
    parts.book.lost(key);
    parts.peers.remove(index);
    Ok(())
}
