//! The messages that go out over a connection, as they pass (BEP 3): a handshake, and then messages, each four bytes
//! that spell how many follow, and these, of which the first is the kind.
ghost use Rattle.std.specs.Prelude.{◌≡◌, ◌↔◌, ◌-◌, ◌<◌, ◌≤◌, IsTrue, length, drop};
ghost use Rattle.bt_wire.specs.Frames.{message_length};
ghost use Rattle.bt_sockets.specs.OutgoingSteps.{IsAtBegin, IsEnded, IsHeadWhole, IsPassed, IsPut, IsTaken, IsToldAs, ask_spelling};

use crate::outgoing_state::Outgoing;
use bt_hashreq::number_at;
use bt_wire::frames::{CANCEL, LENGTH_LEN, REQUEST_LEN, message_len, read_request};
use bt_wire::{Ask, HANDSHAKE_LEN};

/// A message that went out.
#[derive(Clone, Copy, Debug, PartialEq, Eq)]
pub(crate) enum Sent {
    /// A request of this range.
    Request(Ask),
    /// The cancel of such a request.
    Cancel(Ask),
    /// Another message, of this kind.
    Message(u8),
}

impl Outgoing {
    /// Nothing has passed.
    pub(crate) fn new() -> Self
        ensures { IsAtBegin result }
    {
        Outgoing {
            head: [0; REQUEST_LEN],
            known: 0,
            owed: HANDSHAKE_LEN,
        }
    }

    /// Lets the first of the bytes pass, to the end of a message at most: says how many, and the message that is
    /// whole by that.
    pub(crate) fn pass(&mut self, bytes: &[u8]) -> (usize, Option<Sent>)
        requires { 0 < length bytes.now }
        ensures some { 0 < result.0 }
        ensures within { result.0 ≤ length bytes.now }
        ensures passed { IsPassed self.old bytes.now result.0 result.1 self.new }
    {
        let count = self.take(bytes);
        (count, self.end())
    }

    /// Takes the first of the bytes: as many as are to come after what is known; or one, where none are.
    fn take(&mut self, bytes: &[u8]) -> usize
        requires { 0 < length bytes.now }
        ensures some { 0 < result }
        ensures within { result ≤ length bytes.now }
        ensures taken { IsTaken self.old bytes.now result self.new }
    {
        if self.owed > 0 {
            let count = self.owed.min(bytes.len());
            self.owed -= count;
            return count;
        }
        self.put(bytes[0]);
        1
    }

    /// Takes the next byte of a message.
    fn put(&mut self, byte: u8)
        ensures { IsPut self.old byte self.new }
    {
        if self.known < REQUEST_LEN {
            self.head[self.known] = byte;
            self.known += 1;
        }
        self.owed = self.behind_head();
    }

    /// How many bytes are to come after the head, as far as it is known.
    fn behind_head(&self) -> usize
        ensures part { self.now.known < 17 → result ≡ 0 }
        ensures left { self.now.known ≡ 17 → result ≡ message_length self.now.head - 17 }
    {
        if self.known < REQUEST_LEN {
            return 0;
        }
        message_len(&self.head).saturating_sub(REQUEST_LEN)
    }

    /// The message that is whole now; the next one begins then. A keep-alive, which has no kind, is none.
    fn end(&mut self) -> Option<Sent>
        ensures { IsEnded self.old result self.new }
    {
        if self.owed > 0 || !self.is_head_whole() {
            return None;
        }
        let known = self.known;
        self.known = 0;
        if known == LENGTH_LEN {
            return None;
        }
        Some(self.sent())
    }

    /// What a message with this head is told as.
    fn sent(&self) -> Sent
        ensures { IsToldAs self.now.head result }
    {
        if let Some(ask) = read_request(&self.head) {
            return Sent::Request(ask);
        }
        match self.head[LENGTH_LEN] {
            CANCEL => Sent::Cancel(self.ask()),
            kind => Sent::Message(kind),
        }
    }

    /// Whether all of the message is known that its head may have.
    fn is_head_whole(&self) -> bool
        ensures { IsTrue result ↔ IsHeadWhole self.now }
    {
        self.known == REQUEST_LEN
            || self.known >= LENGTH_LEN && self.known == message_len(&self.head)
    }

    /// The range that a request or a cancel names.
    fn ask(&self) -> Ask
        ensures { ask_spelling result ≡ drop 5 self.now.head }
    {
        Ask {
            piece: number_at(&self.head, 5),
            begin: number_at(&self.head, 9),
            length: number_at(&self.head, 13),
        }
    }
}
