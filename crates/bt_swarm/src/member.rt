//! A connection among others, and how what the machine sends comes to it.
ghost use Rattle.std.specs.Prelude.{[], ◌≡◌, ◌≤◌, length, take, Some};
ghost use Rattle.bt_session.specs.Frames.{frames_to, AllFit};
ghost use Rattle.bt_swarm.specs.Causes.{IsFaultOf};
ghost use Rattle.bt_swarm.specs.Moves.{EachMovesBy, Moves};

use crate::buffers::SwarmBuffers;
use crate::frames::{put, put_frames};
use crate::gate::{Gate, QueuedWriter};
use bt_book::PeerKey;
use bt_machine::Frame;
use bt_session::{SessionEnd, WatchedReader};
use std::io::ErrorKind;

/// Of a connection whose way out has so many bytes nothing is read, and no wire event is taken: 256 KiB.
pub const HELD_BACK: usize = 262_144;

/// A connection.
#[derive(Drop)]
pub struct Member<R, W> {
    /// By which the engine knows it.
    pub key: PeerKey,
    /// By which its gate knows it.
    pub place: usize,
    pub reader: R,
    pub writer: W,
    /// Whether a whole wire event may lie in what was fed as its own.
    pub may_have_events: bool,
    /// How it ended, where it has: it is to be let go then.
    pub end: Option<SessionEnd>,
}

/// Whether it may be read, and its wire events taken: it has not ended, and takes what it is sent.
pub(crate) fn takes_more<G: Gate>(member: &Member<G::R, G::W>) -> bool {
    member.end.is_none() && member.writer.waiting() < HELD_BACK
}

/// Reads once of a connection, without waiting: how many bytes came, none too where it ends by that.
pub(crate) fn read_of<G: Gate>(member: &mut Member<G::R, G::W>, buffer: &mut [u8]) -> usize
    ensures moves { Moves G.R.remaining G.W.contents (take result buffer.new) []
        (IsFaultOf G.R.has_failed G.W.has_failed G.is_troubled) member.old member.new }
    ensures within { result ≤ length buffer.new }
{
    match member.reader.read_once(buffer) {
        Ok(0) => {
            put_end::<G>(member, SessionEnd::Ended);
            0
        }
        Ok(count) => count,
        Err(error) if matches!(error.kind(), ErrorKind::WouldBlock | ErrorKind::Interrupted) => 0,
        Err(_) => {
            put_end::<G>(member, SessionEnd::ReadFault);
            0
        }
    }
}

/// Puts what an event sends into the way out of each one that it is for. One that has no memory for it, or
/// whose way out takes no more, ends; the others get theirs all the same.
pub(crate) fn deliver<G: Gate>(
    members: &mut [Member<G::R, G::W>],
    send: &[(PeerKey, Frame)],
    buffers: &mut SwarmBuffers,
)
    requires fit { AllFit send.now }
    ensures { EachMovesBy G.R.remaining G.W.contents (λ key. []) (λ key. frames_to key send.now)
        (λ key. IsFaultOf G.R.has_failed G.W.has_failed G.is_troubled) members.old members.new }
{
    for member in members.iter_mut() {
        deliver_to::<G>(member, send, buffers);
    }
}

/// Puts what an event sends to one into its way out.
fn deliver_to<G: Gate>(
    member: &mut Member<G::R, G::W>,
    send: &[(PeerKey, Frame)],
    buffers: &mut SwarmBuffers,
)
    requires fit { AllFit send.now }
    ensures { Moves G.R.remaining G.W.contents [] (frames_to member.old.key send.now)
        (IsFaultOf G.R.has_failed G.W.has_failed G.is_troubled) member.old member.new }
{
    let None = member.end else {
        return;
    };
    let alloc = buffers.alloc;
    if let Err(end) = put_frames(
        alloc,
        &mut member.writer,
        member.key,
        send,
        &mut buffers.outgoing,
    ) {
        member.end = Some(end);
    }
}

/// Passes on what each peer takes now of what waits for it, and puts a message that says nothing into the way
/// out of each that was silent for long. One whose connection fails ends.
pub(crate) fn pass_on<G: Gate>(gate: &G, members: &mut [Member<G::R, G::W>])
    ensures { EachMovesBy G.R.remaining G.W.contents (λ key. []) (λ key. [])
        (λ key. IsFaultOf G.R.has_failed G.W.has_failed G.is_troubled) members.old members.new }
{
    for member in members.iter_mut() {
        tend(gate, member);
    }
}

/// The same of one.
fn tend<G: Gate>(gate: &G, member: &mut Member<G::R, G::W>)
    ensures { Moves G.R.remaining G.W.contents [] []
        (IsFaultOf G.R.has_failed G.W.has_failed G.is_troubled) member.old member.new }
{
    keep(gate, member);
    pass_on_to::<G>(member);
}

/// Puts a message that says nothing into the way out of one that was silent for long.
fn keep<G: Gate>(gate: &G, member: &mut Member<G::R, G::W>)
    ensures { Moves G.R.remaining G.W.contents [] []
        (IsFaultOf G.R.has_failed G.W.has_failed G.is_troubled) member.old member.new }
{
    let None = member.end else {
        return;
    };
    if member.writer.waiting() > 0 || !gate.is_silent(member.place) {
        return;
    }
    if let Err(end) = put(&mut member.writer, &[0, 0, 0, 0]) {
        member.end = Some(end);
    }
}

/// Passes on what the peer takes now of what waits for it.
fn pass_on_to<G: Gate>(member: &mut Member<G::R, G::W>)
    ensures { Moves G.R.remaining G.W.contents [] []
        (IsFaultOf G.R.has_failed G.W.has_failed G.is_troubled) member.old member.new }
{
    if member.writer.drain().is_err() {
        put_end::<G>(member, SessionEnd::WriteFault);
    }
}

/// Ends a connection, unless it has ended: gives its end.
pub(crate) fn put_end<G: Gate>(member: &mut Member<G::R, G::W>, end: SessionEnd) -> SessionEnd
    ensures moves { Moves G.R.remaining G.W.contents [] [] (λ is. is ≡ end) member.old member.new }
    ensures ended { member.new.end ≡ Some result }
{
    match member.end {
        Some(was) => was,
        None => {
            member.end = Some(end);
            end
        }
    }
}

/// Notes whether a whole wire event may lie in what was fed as its own.
pub(crate) fn note_events<G: Gate>(member: &mut Member<G::R, G::W>, may_have: bool)
    ensures { Moves G.R.remaining G.W.contents [] [] (λ is. ⊥) member.old member.new }
{
    member.may_have_events = may_have;
}
