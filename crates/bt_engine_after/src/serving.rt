//! The peers that are served.
ghost use Rattle.std.specs.Prelude.{◌≡◌, ◌+◌, ◌*◌, ◌≤◌, ◌++◌, IfOk, map, flat_map, length, vec_len, vec_capacity};
ghost use Rattle.bt_book.specs.Book.{BookState};
ghost use Rattle.bt_book.specs.Choking.{IsChoice};
ghost use Rattle.bt_machine.specs.Orderly.{IsOrderly};
ghost use Rattle.bt_machine.specs.Rechoke.{StepRechoke, rechoked, chokes_sent, choking_sent, standing_of};
ghost use Rattle.bt_machine.specs.State.{PeerState};
ghost use Rattle.bt_engine_state.specs.Parts.{state_of, peer_of};
ghost use Rattle.bt_engine_state.specs.Ties.{IsTied};
ghost use Rattle.bt_engine_state.specs.Handling.{AreInShape, KeepsDevices};
ghost use Rattle.bt_engine_after.specs.AfterEvent.{max_frames};
ghost use Rattle.bt_engine_after.specs.ServingSteps.{standing_at, is_served, served_peer, served_sent, message_sent, SendsAllFollowUps};

use crate::after_event::{MAX_FRAMES, follow_up};
use bt_book::{PeerKey, Standing, choose};
use bt_disk::Disk;
use bt_engine_state::{Parts, Peer};
use bt_machine::{Frame, Output};
use bt_tree::NodeHash;
use bt_wire::Message;
use std::alloc::{AllocError, Global};

/// How many frames a peer is sent at most: a choke or an unchoke, and those that follow.
const FRAMES_PER_PEER: usize = 1 + MAX_FRAMES;

/// Chooses the peers to serve anew, and begins the next turn. It sends chokes and unchokes where that
/// changes, and after them what follows for each peer. Errors: out of memory, and then nothing has changed.
pub fn rechoke<D: Disk + Drop, H: NodeHash>(
    alloc: Global,
    parts: &mut Parts<D, H>,
) -> Result<Output, AllocError>
    requires sound { AreInShape parts.old }
    requires orderly { IsOrderly (state_of parts.old) }
    ensures step { StepRechoke H.digest (state_of parts.old) result (state_of parts.new) }
    ensures rest { KeepsDevices parts.old parts.new }
{
    let standings = standings(alloc, &parts.peers)?;
    let mut send = Vec::with_capacity(alloc, FRAMES_PER_PEER * parts.peers.len())?;
    let served = choose(&standings, parts.turn);
    begin_turn(parts, served.as_slice(), &mut send);
    follow_up_all(parts, &mut send);
    Ok(Output {
        send,
        close: None,
        notes: Vec::new(alloc),
    })
}

/// How each peer stands. Errors: out of memory.
fn standings(alloc: Global, peers: &[Peer]) -> Result<Vec<Standing>, AllocError>
    ensures { IfOk result (λ standings. standings.items ≡ map standing_at peers.now) }
{
    let mut standings = Vec::new(alloc);
    for peer in peers {
        standings.push(Standing {
            peer: peer.key,
            interested: peer.peer_interested,
            bytes: peer.payload,
        })?;
    }
    Ok(standings)
}

/// Serves the peers of these keys and no others from now on, and begins the next turn, in which no byte is
/// counted yet.
fn begin_turn<D: Disk + Drop, H: NodeHash>(
    parts: &mut Parts<D, H>,
    served: &[PeerKey],
    send: &mut Vec<(PeerKey, Frame)>,
)
    requires tied { IsTied parts.old }
    requires choice { IsChoice (map standing_of (state_of parts.old).peers) parts.old.turn
        served.now }
    requires room { vec_len send.old + length parts.old.peers.items ≤ vec_capacity send.old }
    ensures state { state_of parts.new ≡ rechoked (state_of parts.old) }
    ensures sent { send.new.items ≡ send.old.items ++ chokes_sent (state_of parts.old) }
    ensures few { vec_len send.new ≤ vec_len send.old + length parts.old.peers.items }
    ensures capacity { vec_capacity send.old ≤ vec_capacity send.new }
    ensures rest { KeepsDevices parts.old parts.new }
{
    choke_and_unchoke(&mut parts.peers, served, send);
    parts.turn = parts.turn.wrapping_add(1);
}

/// Unchokes the peers of these keys and chokes all others: a choke or an unchoke is sent to each for which that
/// changes.
fn choke_and_unchoke(peers: &mut [Peer], served: &[PeerKey], send: &mut Vec<(PeerKey, Frame)>)
    requires { vec_len send.old + length peers.old ≤ vec_capacity send.old }
    ensures peers { peers.new ≡ map (served_peer served.now) peers.old }
    ensures sent { (book : BookState) → send.new.items
        ≡ send.old.items ++ flat_map (served_sent book served.now) peers.old }
    ensures few { vec_len send.new ≤ vec_len send.old + length peers.old }
    ensures capacity { vec_capacity send.old ≤ vec_capacity send.new }
{
    for peer in peers.iter_mut() {
        if let Some(message) = choke_or_unchoke(peer, served) {
            send.push_reserved((peer.key, Frame::Message(message)));
        }
    }
}

/// Unchokes or chokes the peer, and gives what it is to be told, where that has changed.
fn choke_or_unchoke(peer: &mut Peer, served: &[PeerKey]) -> Option<Message>
    ensures peer { peer.new ≡ served_peer served.now peer.old }
    ensures told { (book : BookState) → message_sent (peer_of book peer.old) result
        ≡ served_sent book served.now peer.old }
{
    let serves = is_served(served, peer);
    let was_choking = peer.am_choking;
    peer.am_choking = !serves;
    peer.payload = 0;
    change_of_choking(was_choking, serves)
}

/// Whether the peer is one of those to serve.
fn is_served(served: &[PeerKey], peer: &Peer) -> bool
    ensures { result ≡ is_served served.now peer.now }
{
    served.iter().any(|key| key.0 == peer.key.0)
}

/// What a peer is told that we choked or not, and serve now or not.
fn change_of_choking(was_choking: bool, is_served: bool) -> Option<Message>
    ensures { (p : PeerState) → message_sent p result ≡ choking_sent p was_choking is_served }
{
    match (was_choking, is_served) {
        (true, true) => Some(Message::Unchoke),
        (false, false) => Some(Message::Choke),
        _ => None,
    }
}

/// Does what follows for each peer, in the order of their keys.
fn follow_up_all<D: Disk + Drop, H: NodeHash>(
    parts: &mut Parts<D, H>,
    send: &mut Vec<(PeerKey, Frame)>,
)
    requires sound { AreInShape parts.old }
    requires room { vec_len send.old + max_frames * length parts.old.peers.items
        ≤ vec_capacity send.old }
    ensures follows { SendsAllFollowUps H.digest (state_of parts.old) send.old.items send.new.items
        (state_of parts.new) }
    ensures rest { KeepsDevices parts.old parts.new }
{
    for index in 0..parts.peers.len() {
        follow_up(parts, index, send);
    }
}
