//! Bytes on their way between a peer and its engine, in whatever parts they come.
ghost use Rattle.std.specs.Prelude.{◌≡◌, ◌≢◌, ◌<◌, ◌≤◌, [], ◌++◌, min, length, take, IfOk, OnOk, OnErr};
ghost use Rattle.std.specs.Bool.{OnTrue, OnFalse};
ghost use Rattle.std.specs.Io.KnownBytes.{Appends, Keeps};
ghost use Rattle.bt_connection.specs.ReadAheadSteps.{IsLongGiven};
ghost use Rattle.bt_connection.specs.TranslationSteps.{EndsWithFrame, IsBetween, IsCollected, IsWanted, SettlesBy};

use crate::frame::{Front, front_of, missing_of};
use crate::lent::Lent;
use crate::padding::Padding;
use crate::read_ahead::ReadAhead;
use crate::room::Room;
use crate::short_blocks::ShortBlocks;
use bt_wire::frames::BLOCK_MESSAGE_LEN;
use std::cell::RefMut;
use std::io::{self, Read, Write};
use std::marker::Model;

/// How many bytes of one direction there is room for (`frame_room_length`): those of a piece with a whole block.
const ROOM_LEN: usize = BLOCK_MESSAGE_LEN;

/// Room for what has come in one direction of a connection, and is not given on yet.
pub type FrameRoom = Room<ROOM_LEN>;

/// Where bytes come from.
#[derive(Clone, Copy, Debug, PartialEq, Eq)]
pub enum Side {
    /// The peer's, on their way to the engine.
    Peer,
    /// The engine's, on their way to the peer.
    Engine,
}

/// One direction of a connection. Both directions share what is remembered of the peer.
#[derive(Drop)]
pub(crate) struct Direction<'a> {
    pub(crate) side: Side,
    pub(crate) blocks: &'a ShortBlocks,
    pub(crate) padding: Lent<'a, Padding>,
    pub(crate) room: RefMut<'a, FrameRoom>,
    /// How many of the bytes in the room are to be given on. The bytes behind these came of a frame that is not
    /// whole.
    pub(crate) ready: usize,
    /// How many of the next bytes pass as they come.
    pub(crate) passing: usize,
}

impl<'a> Model for Direction<'a> {
    ghost use Rattle.std.specs.RefCell.{ref_mut_value};
    ghost use Rattle.bt_connection.specs.Padded.{DirectionState, direction_state};
    ghost use Rattle.bt_connection.specs.TranslationSteps.{IsOrderly};

    ghost Value = { DirectionState };

    ghost view = { λ d. direction_state d.side d.blocks.now d.passing
        (ref_mut_value d.room) d.ready };

    ghost invariant = { λ d. IsOrderly d.passing (ref_mut_value d.room) d.ready };
}

impl<'a> Direction<'a> {
    /// Whether something waits to be given on.
    pub(crate) fn is_ready(&self) -> bool
        ensures waits { OnTrue result (self.now.waiting ≢ []) }
        ensures none { OnFalse result (self.now.waiting ≡ []) }
    {
        self.ready > 0
    }

    /// Whether the next byte that comes from the peer is the first of a message, and nothing waits of the one before.
    pub(crate) fn is_between(&self) -> bool
        ensures { OnTrue result (IsBetween self.now) }
    {
        self.side == Side::Peer
            && self.ready == 0
            && self.passing == 0
            && self.room.as_slice().is_empty()
    }

    /// Lets a message pass that is longer than a request, where the reader knows that one comes next. As many of its
    /// bytes as the buffer has room for go into it, and it gives how many they are; the others wait. Where no such
    /// message is known to come, nothing is done, and the answer is 0.
    pub(crate) fn pass_long<R, O>(
        &mut self,
        from: &mut ReadAhead<'_, R, O>,
        buffer: &mut [u8],
    ) -> usize
        requires room { 0 < length buffer.old }
        requires between { IsBetween self.old }
        ensures passed { 0 < result
            → IsLongGiven from.old (take result buffer.new ++ self.new.waiting) from.new }
        ensures within { result ≤ length buffer.new }
        ensures others { self.new ≡ record self.old { waiting = self.new.waiting } }
        ensures none { result ≡ 0 → from.new ≡ from.old }
        ensures kept { result ≡ 0 → self.new.waiting ≡ [] }
    {
        let count = from.give_long(buffer, &mut *self.room);
        self.ready = self.room.as_slice().len();
        count
    }

    /// Reads once: bytes that pass, or bytes that are missing of a frame. What is to be given on waits then. Gives
    /// how many bytes came. Errors: those of the reader; what is remembered is in use, which no call of this crate
    /// brings about.
    pub(crate) fn collect<R: Read>(&mut self, from: &mut R) -> io::Result<usize>
        requires { self.old.waiting ≡ [] }
        ensures came { IfOk result (λ count.
            IsCollected (R.remaining from.old) (R.remaining from.new) self.old count self.new) }
        ensures kept { OnErr result (Keeps (R.remaining from.old) (R.remaining from.new)) }
        ensures same { OnErr result (self.new ≡ self.old) }
    {
        let mut guard = self.padding.try_borrow_mut()?;
        let most = self.wanted();
        let count = self.room.read_from(from, most)?;
        if self.passing > 0 {
            self.ready = count;
            self.passing -= count;
        } else if let Some(behind) = settle(self.side, self.blocks, &mut *guard, &mut *self.room) {
            self.ready = self.room.as_slice().len();
            self.passing = behind;
        }
        Ok(count)
    }

    /// How many bytes the next read takes at most: bytes that pass, or those that are missing of a frame.
    fn wanted(&self) -> usize
        requires { self.now.waiting ≡ [] }
        ensures { IsWanted self.now result }
    {
        if self.passing > 0 {
            self.passing.min(ROOM_LEN)
        } else {
            missing_of(self.room.as_slice())
        }
    }

    /// Gives the first of the bytes that wait, as many as the buffer has room for; gives how many they are.
    pub(crate) fn give(&mut self, buffer: &mut [u8]) -> usize
        ensures count { result ≡ min (length self.old.waiting) (length buffer.old) }
        ensures given { self.old.waiting ≡ take result buffer.new ++ self.new.waiting }
        ensures others { self.new ≡ record self.old { waiting = self.new.waiting } }
    {
        let count = self.room.give(self.ready, buffer);
        self.ready -= count;
        count
    }

    /// Writes all bytes that wait. None waits then, also after an error. Errors: those of the writer.
    pub(crate) fn send<W: Write>(&mut self, to: &mut W) -> io::Result<()>
        ensures sent { OnOk result (Appends (W.contents to.old)
            (W.contents to.new) self.old.waiting) }
        ensures none { self.new ≡ record self.old { waiting = [] } }
    {
        let answer = to.write_all(&self.room.as_slice()[..self.ready]);
        self.room.drop_front(self.ready);
        self.ready = 0;
        answer
    }
}

/// Decides on the bytes in a room, which end with the first frame in it, or before. None where they have to wait for
/// more. Else what is in the room now is given on, and the answer is how many bytes behind it pass as they come.
fn settle(
    side: Side,
    blocks: &ShortBlocks,
    padding: &mut Padding,
    room: &mut FrameRoom,
) -> Option<usize>
    requires { EndsWithFrame room.old }
    ensures { SettlesBy blocks.now side room.old result room.new }
{
    match (front_of(room.as_slice()), side) {
        (Front::Part, _) => return None,
        (Front::Other(missing), _) => return Some(missing),
        (Front::Frame, Side::Peer) => padding.incoming(blocks, room),
        (Front::Frame, Side::Engine) => padding.outgoing(blocks, room),
    }
    Some(0)
}
