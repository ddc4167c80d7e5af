//! A peer that comes, and what it is sent.
ghost use Rattle.std.specs.Prelude.{◌≡◌, Err};
ghost use Rattle.bt_machine.specs.Orderly.{IsOrderly};
ghost use Rattle.bt_machine.specs.Peers.{StepConnect, our_handshake};
ghost use Rattle.bt_engine_state.specs.Parts.{state_of};
ghost use Rattle.bt_engine_state.specs.Ties.{IsTied};
ghost use Rattle.bt_engine_state.specs.Handling.{KeepsDevices};
ghost use Rattle.bt_engine.specs.GreetingSteps.{HasTwo, IsGreeting};

use bt_book::PeerKey;
use bt_disk::Disk;
use bt_engine_state::{MAX_PEERS, Parts};
use bt_machine::{ConnectError, Frame, Output};
use bt_meta::Torrent;
use bt_tree::NodeHash;
use bt_wire::{Bytes, Handshake, Message};
use std::alloc::Global;

/// The name by which this program calls itself.
const PEER_NAME: [u8; 20] = *b"-BS0001-000000000000";

/// Connects a peer, and gives its key and what it is sent: our handshake and our bitfield.
pub(crate) fn connect<D: Disk + Drop, H: NodeHash>(
    alloc: Global,
    parts: &mut Parts<D, H>,
) -> Result<(PeerKey, Output), ConnectError>
    requires tied { IsTied parts.old }
    requires orderly { IsOrderly (state_of parts.old) }
    ensures step { StepConnect (state_of parts.old) result (state_of parts.new) }
    ensures rest { KeepsDevices parts.old parts.new }
{
    let Ok(send) = Vec::with_capacity(alloc, 2) else {
        return Err(refusal(parts));
    };
    match bt_engine_state::connect(alloc, parts) {
        Ok((key, bits)) => Ok((key, greet(alloc, &parts.torrent, key, bits, send))),
        Err(error) => Err(error),
    }
}

/// Why no peer is connected where memory is refused.
fn refusal<D: Disk + Drop, H: NodeHash>(parts: &Parts<D, H>) -> ConnectError
    ensures { StepConnect (state_of parts.now) (Err result) (state_of parts.now) }
{
    if parts.peers.as_slice().len() >= MAX_PEERS {
        return ConnectError::Full;
    }
    if parts.last_key == u64::MAX {
        return ConnectError::SerialsSpent;
    }
    ConnectError::OutOfMemory
}

/// What a new peer is sent, in a list that has room for it.
fn greet(
    alloc: Global,
    torrent: &Torrent,
    key: PeerKey,
    bits: Bytes,
    send: Vec<(PeerKey, Frame)>,
) -> Output
    requires { HasTwo send }
    ensures { IsGreeting torrent.now key bits result }
{
    let mut send = send;
    send.push((key, Frame::Hello(our_handshake(torrent))))
        .unwrap();
    send.push((key, Frame::Message(Message::Bitfield(bits))))
        .unwrap();
    Output {
        send,
        close: None,
        notes: Vec::new(alloc),
    }
}

/// Our handshake for the torrent.
fn our_handshake(torrent: &Torrent) -> Handshake
    ensures { result ≡ our_handshake torrent.now.infohash }
{
    let whole = torrent.infohash();
    let mut infohash = [0; 20];
    infohash.copy_from_slice(&whole[..20]);
    Handshake {
        infohash,
        peer_id: PEER_NAME,
    }
}
