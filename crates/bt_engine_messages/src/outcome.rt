//! What a wire event comes to by itself: one type for all events.
use arrayvec::ArrayVec;
use bt_book::{MAX_ASKERS, PeerKey};
use bt_machine::{Note, Why};
use bt_resume::Hint;
use bt_wire::{Ask, Message};

/// What a wire event comes to by itself.
#[derive(Debug, Drop)]
pub enum Outcome {
    /// The peer is closed.
    Closed(Why),
    /// The peer stays. Where there is a log, the hint is the proof that the event brought for it.
    Stays(Reply, Option<Hint>),
}

/// What a wire event comes to by itself, where its peer stays.
#[derive(Debug, Drop)]
pub enum Reply {
    /// Nothing is sent, and nothing noted.
    Nothing,
    /// The peer is sent this.
    Sends(Message),
    Noted(Note),
    /// A block was stored, with this note: these others, in the order of their keys, which were asked for this
    /// range too, are sent a cancel of it (BEP 3).
    Stored(Note, Ask, ArrayVec<PeerKey, MAX_ASKERS>),
    /// Blocks were settled, with these notes.
    Settled(Vec<Note>),
}
