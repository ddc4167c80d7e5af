//! The cutter of a peer's stream: it is fed bytes in parts of any size, and gives the handshake and the
//! messages, each once it is whole.
ghost use Rattle.std.specs.Prelude.{◌≡◌, ◌+◌, ◌-◌, ◌≤◌, length, drop, take, false, IsTrue, IfOk, IfErr, OnOk, OnErr};
ghost use Rattle.bt_wire.specs.Cutter.{new_stream, fed, IsAnswer, IsRefusal, IsFeedRefusal};

use crate::event::{WireError, WireEvent};
use crate::front::first_event;
use std::alloc::Global;
use std::marker::Model;
use std::mem;

/// The most bytes that a buffer has room for whatever is unread.
const KEPT_ROOM: usize = 1 << 17;

/// A peer's stream, cut into its events: bytes are fed in parts of any size, and an event is taken once it is
/// whole.
#[derive(Debug, Drop)]
pub struct Cutter {
    alloc: Global,
    /// What was fed; the events of the first `start` bytes are taken.
    bytes: Vec<u8>,
    start: usize,
    greeted: bool,
    failed: bool,
}

impl Model for Cutter {
    ghost use Rattle.std.specs.Prelude.{drop, length, ◌≤◌};
    ghost use Rattle.bt_wire.specs.Cutter.{Stream, stream};

    ghost Value = { Stream };

    ghost view = { λ a. stream (drop a.start a.bytes.items) a.greeted a.failed };

    ghost invariant = { λ a. a.start ≤ length a.bytes.items };
}

impl Cutter {
    /// A cutter without bytes. It takes no memory.
    pub fn new(alloc: Global) -> Cutter
        ensures { result ≡ new_stream }
    {
        Cutter {
            alloc,
            bytes: Vec::new(alloc),
            start: 0,
            greeted: false,
            failed: false,
        }
    }

    /// Puts bytes after the unread ones, all or none.
    ///
    /// Errors: `Failed` after `next` returned a fault of the stream; `OutOfMemory`. Neither changes the
    /// cutter.
    pub fn feed(&mut self, bytes: &[u8]) -> Result<(), WireError>
        ensures fed { OnOk result (self.new ≡ fed self.old bytes.now) }
        ensures running { OnOk result (self.old.failed ≡ false) }
        ensures refused { IfErr result (IsFeedRefusal self.old) }
        ensures kept { OnErr result (self.new ≡ self.old) }
    {
        if self.failed {
            return Err(WireError::Failed);
        }
        self.start = drop_taken(&mut self.bytes, self.start);
        self.bytes.extend_from_slice(bytes)?;
        Ok(())
    }

    /// Puts the first `count` bytes of a buffer after the unread ones, all or none, as `feed` does. Where none
    /// is unread, the cutter's own buffer is at least as long, and the other has room for no more than 131,072
    /// bytes, the two are exchanged, and no byte is copied. So the buffer may hold other bytes afterwards; it does
    /// not get shorter.
    ///
    /// Errors: `Failed` after `next` returned a fault of the stream; `OutOfMemory`. Neither changes the
    /// cutter or the buffer.
    pub fn feed_buffer(&mut self, buffer: &mut Vec<u8>, count: usize) -> Result<(), WireError>
        requires within { count ≤ length buffer.old.items }
        ensures fed { OnOk result (self.new ≡ fed self.old (take count buffer.old.items)) }
        ensures running { OnOk result (self.old.failed ≡ false) }
        ensures refused { IfErr result (IsFeedRefusal self.old) }
        ensures kept { OnErr result (self.new ≡ self.old) }
        ensures unchanged { OnErr result (buffer.new.items ≡ buffer.old.items) }
        ensures long { length buffer.old.items ≤ length buffer.new.items }
    {
        if self.failed {
            return Err(WireError::Failed);
        }
        if self.start < self.bytes.len() || !is_exchanged(&self.bytes, buffer) {
            return self.feed(&buffer[..count]);
        }
        mem::swap(&mut self.bytes, buffer);
        self.bytes.truncate(count);
        self.start = 0;
        Ok(())
    }

    /// Takes the first event from the unread bytes; None where no event is whole and no fault shows.
    ///
    /// Errors: `BadProtocol`, `TooLong` or `BadLength` as soon as the bytes show that fault, and `Failed`
    /// ever after; `OutOfMemory` where a bitfield, a piece or hashes are whole, which leaves the cutter as it
    /// was.
    pub fn next(&mut self) -> Result<Option<WireEvent>, WireError>
        ensures answer { IfOk result (λ found. IsAnswer self.old found self.new) }
        ensures refused { IfErr result (λ error. IsRefusal self.old error self.new) }
    {
        if self.failed {
            return Err(WireError::Failed);
        }
        match first_event(self.alloc, self.greeted, &self.bytes[self.start..]) {
            Ok(Some((event, len))) => {
                self.start = start_of_rest(self.alloc, &mut self.bytes, self.start + len);
                self.greeted = true;
                Ok(Some(event))
            }
            Ok(None) => Ok(None),
            Err(WireError::OutOfMemory) => Err(WireError::OutOfMemory),
            Err(fault) => {
                self.failed = true;
                Err(fault)
            }
        }
    }

    /// How many bytes the buffer has room for, which is all the memory that a cutter takes.
    pub fn room(&self) -> usize
        ensures { length self.now.unread ≤ result }
    {
        self.bytes.capacity()
    }
}

/// Whether a cutter takes a buffer in exchange for its own, where nothing in that is unread: its own is at
/// least as long, and the other has no more room than is kept.
fn is_exchanged(own: &Vec<u8>, buffer: &Vec<u8>) -> bool
    ensures { IsTrue result → length buffer.now.items ≤ length own.now.items }
{
    buffer.len() <= own.len() && buffer.capacity() <= KEPT_ROOM
}

/// Drops the first `start` bytes where they are at least half. Returns where the others begin.
fn drop_taken(bytes: &mut Vec<u8>, start: usize) -> usize
    requires { start ≤ length bytes.old.items }
    ensures same { drop result bytes.new.items ≡ drop start bytes.old.items }
    ensures few { result + result ≤ length bytes.new.items }
{
    if start < bytes.len() - start {
        return start;
    }
    drop_front(bytes, start);
    0
}

/// Drops the first `count` bytes, which are at least half.
fn drop_front(bytes: &mut Vec<u8>, count: usize)
    requires within { count ≤ length bytes.old.items }
    requires half { length bytes.old.items - count ≤ count }
    ensures { bytes.new.items ≡ drop count bytes.old.items }
{
    let rest = bytes.len() - count;
    let (front, back) = bytes.split_at_mut(count);
    front[..rest].copy_from_slice(back);
    bytes.truncate(rest);
}

/// Drops the first `start` bytes where the buffer has more room than is kept and at least four times what
/// the others need: these go to a buffer of their size. Where memory for it is refused all stay. Returns
/// where the others begin.
fn start_of_rest(alloc: Global, bytes: &mut Vec<u8>, start: usize) -> usize
    requires { start ≤ length bytes.old.items }
    ensures within { result ≤ length bytes.new.items }
    ensures same { drop result bytes.new.items ≡ drop start bytes.old.items }
{
    if bytes.capacity() <= KEPT_ROOM || bytes.capacity() / 4 < bytes.len() - start {
        return start;
    }
    match Vec::from_slice(alloc, &bytes[start..]) {
        Ok(rest) => {
            *bytes = rest;
            0
        }
        Err(_) => start,
    }
}
