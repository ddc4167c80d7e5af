//! What is remembered of one connection.

use crate::passage::Shared;
use crate::timing::{Role, Timed};
use bt_book::MAX_REQUESTS;
use bt_connection::{Lent, Padding, Requests, Room};
use bt_wire::frames::BLOCK_MESSAGE_LEN;
use std::cell::Cell;
use std::io;
use std::time::Instant;

/// How many bytes that came early there is room for: as many messages of a whole block as an engine asks one peer for.
pub(crate) const EARLY_LEN: usize = MAX_REQUESTS * BLOCK_MESSAGE_LEN;

/// Room for what comes of a peer that takes nothing.
pub(crate) type EarlyRoom = Room<EARLY_LEN>;

/// What is remembered of one connection, lent to what stands before its socket. It is made new for each: nothing of the
/// one before is in it, and nothing of this one has to be forgotten.
#[derive(Clone, Copy)]
pub(crate) struct Remembered<'a> {
    /// What the peer asked for that pads last blocks.
    pub(crate) padding: Lent<'a, Padding>,
    /// What is sent right before the connection is read.
    pub(crate) requests: Lent<'a, Requests>,
    /// What came while the peer took nothing.
    pub(crate) early: Lent<'a, EarlyRoom>,
    /// How long the peer took for what it owes.
    pub(crate) timing: Timed<'a>,
    /// How many bytes the peer was sent.
    pub(crate) sent: &'a Cell<u64>,
}

impl<'a> Remembered<'a> {
    /// Nothing is remembered of a connection that begins now, for a torrent of `pieces` pieces. It takes no memory.
    /// Errors: what it lies in is in use, which no call of this crate brings about.
    pub(crate) fn new(
        shared: &'a Shared,
        role: Role,
        pieces: u32,
        now: Instant,
    ) -> io::Result<Self> {
        let seat = &shared.seat;
        seat.sent.set(0);
        Ok(Remembered {
            padding: Lent::new(&seat.padding)?,
            requests: Lent::new(&shared.requests)?,
            early: Lent::new(&shared.early)?,
            timing: seat.timing.begin(role, pieces, now),
            sent: &seat.sent,
        })
    }
}
