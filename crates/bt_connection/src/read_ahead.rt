//! What a peer sends, read ahead of its engine.
ghost use Rattle.std.specs.Prelude.{◌≡◌, ◌↔◌, ◌++◌, ◌<◌, ◌≤◌, length, take, IsTrue, IfOk, OnOk, OnErr};
ghost use Rattle.std.specs.Io.{ReadsAtMost};
ghost use Rattle.std.specs.Io.KnownBytes.{ReadConsumes};
ghost use Rattle.bt_connection.specs.ReadAhead.{new_reader, reader_remaining, HoldsBlockAlone, IsFilled, IsGiven, IsRead, LosesNothing};
ghost use Rattle.bt_connection.specs.ReadAheadSteps.{IsRefilled, KeepsAll, IsLongGiven};

use crate::blocks::Blocks;
use crate::messages::cut_behind;
use crate::observer::{Observer, Rest};
use crate::room::Room;
use crate::translation::FrameRoom;
use bt_devices::DigestCache;
use bt_wire::HANDSHAKE_LEN;
use bt_wire::frames::BLOCK_MESSAGE_LEN;
use std::cell::{RefCell, RefMut};
use std::io;
use std::io::Read;
use std::marker::Model;

/// How many bytes there is room for (`ahead_room_length`): eight messages with a whole block, and a part of one more.
const ROOM_LEN: usize = 135_168;

/// Room for bytes that were read and are not given yet.
pub type AheadRoom = Room<ROOM_LEN>;

/// A reader of what a peer sends, which reads ahead of its engine. It tells an observer what comes, and has blocks
/// digested, eight at a time, before the engine asks for their digests one by one.
///
/// It gives just the bytes of the inner reader, in order, whatever they are. A message that may carry a whole block
/// waits until it is whole, or the inner reader has ended. All other bytes are given as they come, since they may
/// show a fault. While something may be given, the inner reader is not read, since that could wait for ever.
#[derive(Drop)]
pub struct ReadAhead<'a, R, O> {
    inner: R,
    cache: &'a RefCell<DigestCache>,
    observer: &'a O,
    room: RefMut<'a, AheadRoom>,
    /// How many of the bytes in the room may be given.
    ready: usize,
    /// Which messages among these bytes carry a whole block. Those that were given stay noted, which does no harm.
    blocks: Blocks,
    /// How many bytes are still to come of a message that is given as it comes. While there are some, all bytes in
    /// the room may be given.
    owed: usize,
    /// What the bytes are that are still to come.
    rest: Rest,
}

impl<'a, R, O> Model for ReadAhead<'a, R, O> {
    ghost use Rattle.std.specs.RefCell.{ref_mut_value};
    ghost use Rattle.bt_connection.specs.ReadAhead.{ReaderState, IsOrderly};
    ghost use Rattle.bt_connection.specs.MessageSteps.{HasLong};

    ghost Value = { ReaderState R };

    ghost view = { λ r. record {
      inner = r.inner;
      waiting = ref_mut_value r.room;
      ready = r.ready;
      owed = r.owed;
    } };

    ghost invariant = { λ r.
        IsOrderly (ref_mut_value r.room) r.ready × HasLong (ref_mut_value r.room) r.ready
        r.blocks };
}

impl<'a, R: Drop, O> ReadAhead<'a, R, O> {
    /// A reader at the beginning of a connection. What lies in `room` is forgotten. It takes no memory.
    pub fn new(
        inner: R,
        cache: &'a RefCell<DigestCache>,
        observer: &'a O,
        mut room: RefMut<'a, AheadRoom>,
    ) -> Self
        ensures { result ≡ new_reader inner }
    {
        room.clear();
        ReadAhead {
            inner,
            cache,
            observer,
            room,
            ready: 0,
            blocks: Blocks::new(),
            // The handshake is given as it comes.
            owed: HANDSHAKE_LEN,
            rest: Rest::Handshake,
        }
    }
}

impl<'a, R, O> ReadAhead<'a, R, O> {
    /// Whether something may be given.
    pub(crate) fn is_ready(&self) -> bool
        ensures { IsTrue result ↔ (0 < self.now.ready) }
    {
        self.ready > 0
    }

    /// Gives the first of the bytes that may be given, as many as the buffer has room for; gives how many they are.
    fn give(&mut self, buffer: &mut [u8]) -> usize
        ensures given { IsGiven self.old result buffer.new self.new }
        ensures held { HoldsBlockAlone self.new }
    {
        let count = self.room.give(self.ready, buffer);
        self.ready -= count;
        count
    }

    /// Gives the first message, where that is known to be as long as a piece with a whole block: as many of its bytes
    /// as the buffer has room for, and gives how many they are. The rest of the message replaces what is in the room
    /// `other`. Where the first message is none such, nothing is done, and the answer is 0.
    pub(crate) fn give_long(&mut self, buffer: &mut [u8], other: &mut FrameRoom) -> usize
        requires { 0 < length buffer.old }
        ensures given { 0 < result
            → IsLongGiven self.old (take result buffer.new ++ other.new) self.new }
        ensures within { result ≤ length buffer.new }
        ensures none { result ≡ 0 → self.new ≡ self.old }
        ensures kept { result ≡ 0 → other.new ≡ other.old }
    {
        if !self.blocks.begin_at(self.room.as_slice().len()) {
            return 0;
        }
        let count = self.room.give_to(BLOCK_MESSAGE_LEN, buffer, other);
        self.ready -= BLOCK_MESSAGE_LEN;
        count
    }
}

impl<'a, R: Read, O: Observer> ReadAhead<'a, R, O> {
    /// Reads once, and finds what may be given now. The observer is told what came, and blocks in it are digested.
    /// Gives how many bytes came: 0 at the end. Errors: those of the inner reader.
    fn refill(&mut self) -> io::Result<usize>
        requires { self.old.ready ≡ 0 }
        ensures refilled { IfOk result (λ count. IsRefilled R.remaining self.old count self.new) }
        ensures kept { OnErr result (KeepsAll R.remaining self.old self.new) }
        ensures held { HoldsBlockAlone self.new }
    {
        let most = ROOM_LEN - self.room.as_slice().len();
        let count = self.room.read_from(&mut self.inner, most)?;
        let waiting = self.room.as_slice();
        let cut = cut_behind(count, self.owed, self.rest, waiting, self.observer);
        digest_ahead(self.cache, waiting, &cut.blocks);
        self.ready = cut.ready;
        self.blocks = cut.blocks;
        self.owed = cut.owed;
        self.rest = cut.rest;
        Ok(count)
    }

    /// Reads until something may be given, or to the end. Errors: those of `refill`.
    pub(crate) fn fill(&mut self) -> io::Result<()>
        ensures filled { OnOk result (IsFilled R.remaining self.old self.new) }
        ensures kept { OnErr result (LosesNothing R.remaining self.old self.new) }
        ensures held { OnErr result (HoldsBlockAlone self.new) }
    {
        'reading: while !self.is_ready() {
            if self.refill()? == 0 {
                return Ok(());
            }
        }
        Ok(())
    }
}

impl<'a, R: Read, O: Observer> Read for ReadAhead<'a, R, O> {
    ghost remaining = { reader_remaining R.remaining };

    /// Errors: those of the inner reader. After any of them, `Interrupted` too, the read may be made again, and
    /// nothing is lost.
    fn read(&mut self, buffer: &mut [u8]) -> io::Result<usize>
        ensures bound { ReadsAtMost result buffer.new }
        ensures bytes { ReadConsumes (reader_remaining R.remaining self.old)
            (reader_remaining R.remaining self.new) result buffer.new }
        ensures given { IfOk result
            (λ count. IsRead R.remaining self.old count buffer.new self.new) }
        ensures kept { OnErr result (LosesNothing R.remaining self.old self.new) }
        ensures held { HoldsBlockAlone self.new }
    {
        self.fill()?;
        Ok(self.give(buffer))
    }
}

/// Has the blocks of these messages digested, where there are enough of them. While the cache is in use, nothing is
/// done.
fn digest_ahead(cache: &RefCell<DigestCache>, waiting: &[u8], blocks: &Blocks) {
    if let Ok(mut guard) = cache.try_borrow_mut() {
        blocks.fill(&mut *guard, waiting);
    }
}
