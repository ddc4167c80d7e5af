//! What stands between a connection and its engine.

use crate::remembered::EarlyRoom;
use crate::timing::Timing;
use bt_connection::{AheadRoom, FrameRoom, Padding, Requests, Room, ShortBlocks};
use bt_devices::{Alarm, DigestCache};
use std::alloc::{AllocError, Global};
use std::cell::{Cell, RefCell};

/// What is one connection's at a time, and stands between it and its engine. What one puts into it the next does not
/// find: each makes it new (`Lent`).
#[derive(Drop)]
pub struct Seat {
    /// Where what is remembered of what the peer asked for lies.
    pub padding: RefCell<Padding>,
    /// What has passed, and when.
    pub timing: Timing,
    /// How many bytes the connection was sent.
    pub sent: Cell<u64>,
    /// Where what is read ahead waits. A connection borrows it, and the two below, for as long as it is there.
    pub room: RefCell<AheadRoom>,
    /// Where what came of a message of a peer waits,
    pub incoming: RefCell<FrameRoom>,
    /// and of one to it.
    pub outgoing: RefCell<FrameRoom>,
}

impl Seat {
    /// One that nobody has. All the memory that it ever takes is taken here. Errors: out of memory.
    pub fn new(alloc: Global) -> Result<Self, AllocError> {
        let padding = RefCell::new(Padding::new(alloc)?);
        let room = RefCell::new(AheadRoom::new(alloc)?);
        let incoming = RefCell::new(FrameRoom::new(alloc)?);
        let outgoing = RefCell::new(FrameRoom::new(alloc)?);
        Ok(Seat {
            padding,
            timing: Timing::new(),
            sent: Cell::new(0),
            room,
            incoming,
            outgoing,
        })
    }
}

/// What the connections that follow one another share, with each other and with the devices of their engine. What one
/// of them puts into it the next does not find, but for digests: each makes it new (`Lent`).
#[derive(Drop)]
pub struct Shared {
    /// Where the digests are put that are made ahead, as blocks come or are read.
    pub digests: RefCell<DigestCache>,
    /// The seat of the connection that is there.
    pub(crate) seat: Seat,
    /// Where what is remembered of it beside that lies.
    pub(crate) requests: RefCell<Requests>,
    pub(crate) early: RefCell<EarlyRoom>,
    /// Rung where a device refuses a write.
    pub alarm: Alarm,
}

impl Shared {
    /// What connections share before the first one: nothing is digested ahead, remembered or held back, and the alarm
    /// does not ring. All the memory that a connection ever takes is taken here. Errors: out of memory.
    pub fn new(alloc: Global) -> Result<Self, AllocError> {
        let digests = RefCell::new(DigestCache::new(alloc)?);
        let seat = Seat::new(alloc)?;
        let requests = RefCell::new(Requests::new(alloc)?);
        let early = RefCell::new(Room::new(alloc)?);
        Ok(Shared {
            digests,
            seat,
            requests,
            early,
            alarm: Alarm::new(),
        })
    }
}

/// What stands between a connection and its engine. Connections that follow one another share it.
#[derive(Clone, Copy)]
pub struct Passage<'a> {
    /// The last blocks of the torrent that are short.
    pub short_blocks: &'a ShortBlocks,
    /// How many pieces the torrent has.
    pub pieces: u32,
    pub shared: &'a Shared,
}
