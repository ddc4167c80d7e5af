//! Room for the connections of a gate.
ghost use Rattle.std.specs.Prelude.{◌≡◌, length, IfOk, IfSome};
ghost use Rattle.bt_gate.specs.Ways.{AreNew};

use crate::marks::Marks;
use crate::ready_stream::ReadyStream;
use crate::way_out::SeatWriter;
use bt_connection::{Lent, Padded, Queue, ReadAhead, Side};
use bt_sockets::{Passage, Role, Seat, Timed, Timing};
use std::alloc::{AllocError, Global};
use std::cell::Cell;
use std::io::{self, Read, Write};
use std::net::OpenStream;
use std::time::{Duration, Instant};

/// What is read from a connection, as its engine gets it.
pub type SeatReader<'a, S> = Padded<'a, ReadAhead<'a, ReadyStream<'a, S>, Timing>>;

/// Room for one connection at a time.
#[derive(Drop)]
pub struct Place {
    seat: Seat,
    /// None: nobody is here.
    marks: Cell<Option<Marks>>,
}

/// Room for all connections that are there at once, each at its place.
#[derive(Drop)]
pub struct Seats {
    places: Vec<Place>,
}

impl Seats {
    /// Room for so many connections, 190 KiB each. All the memory that they ever take is taken here, but for what waits to
    /// go out to their peers. Errors: out of memory.
    pub fn new(alloc: Global, count: usize) -> Result<Self, AllocError> {
        let mut places = Vec::new(alloc);
        for _ in 0..count {
            places.push(Place::new(alloc)?)?;
        }
        Ok(Seats { places })
    }

    /// How many connections there is room for.
    pub(crate) fn count(&self) -> usize {
        self.places.len()
    }

    /// The place of this number.
    pub(crate) fn place(&self, number: usize) -> Option<&Place> {
        self.places.get(number)
    }

    /// The places, in order.
    pub(crate) fn places(&self) -> &[Place] {
        self.places.as_slice()
    }
}

impl Place {
    /// A place where nobody is. Errors: out of memory.
    fn new(alloc: Global) -> Result<Self, AllocError> {
        Ok(Place {
            seat: Seat::new(alloc)?,
            marks: Cell::new(None),
        })
    }

    /// What is known of the socket of the connection that is here.
    pub(crate) fn marks(&self) -> Option<Marks> {
        self.marks.get()
    }

    /// Notes what is known of it now.
    pub(crate) fn put_marks(&self, marks: Marks) {
        self.marks.set(Some(marks));
    }

    /// Notes how many bytes wait to go out.
    pub(crate) fn note_waiting(&self, waiting: usize) {
        if let Some(mut marks) = self.marks.get() {
            marks.note_waiting(waiting);
            self.put_marks(marks);
        }
    }

    /// Notes what the system tells of the socket.
    pub(crate) fn see(&self, readable: bool, writable: bool) {
        if let Some(mut marks) = self.marks.get() {
            marks.see(readable, writable);
            self.put_marks(marks);
        }
    }

    /// Whether the connection that is here is to be read (`Marks`).
    pub(crate) fn is_due(&self) -> bool {
        match self.marks.get() {
            Some(marks) => marks.is_due(),
            None => false,
        }
    }

    /// Whether nothing went out to it for long.
    pub(crate) fn is_silent(&self) -> bool {
        match self.marks.get() {
            Some(marks) => marks.is_silent(),
            None => false,
        }
    }

    /// Whether there is something to do for it that nobody tells of.
    pub(crate) fn has_work(&self) -> bool {
        match self.marks.get() {
            Some(marks) => marks.has_work(),
            None => false,
        }
    }

    /// The clock of the gate goes on, by this time.
    pub(crate) fn pass(&self, time: Duration, now: Instant) {
        if let Some(mut marks) = self.marks.get() {
            marks.pass(now);
            self.put_marks(marks);
            self.seat.timing.pass(time);
        }
    }

    /// Counts bytes that went out.
    pub(crate) fn count_sent(&self, count: usize) {
        let sent = &self.seat.sent;
        sent.set(sent.get().saturating_add(count as u64));
    }

    /// How many bytes went out to the peer that was here last.
    pub(crate) fn sent(&self) -> u64 {
        self.seat.sent.get()
    }

    /// What has passed over the connection that was here last, and when.
    pub(crate) fn timing(&self) -> &Timing {
        &self.seat.timing
    }

    /// Nobody is here any more.
    pub(crate) fn leave(&self) {
        self.marks.set(None);
    }

    /// A connection comes here, whose socket does not wait: what is read from it, and what is written to it. Both are new:
    /// nothing of another connection waits in them, or is remembered. No memory is taken. Errors: the system refuses a
    /// second handle of the socket; one that was here before is not gone.
    pub(crate) fn seat<'a, S: Read + Write + OpenStream + Drop>(
        &'a self,
        alloc: Global,
        passage: Passage<'a>,
        role: Role,
        now: Instant,
        stream: S,
    ) -> io::Result<(SeatReader<'a, S>, SeatWriter<'a, S>)>
        ensures { IfOk result (λ ways. AreNew passage.entry.short_blocks.now ways.0 ways.1) }
    {
        let room = self.seat.room.try_borrow_mut()?;
        let incoming = self.seat.incoming.try_borrow_mut()?;
        let outgoing = self.seat.outgoing.try_borrow_mut()?;
        let padding = Lent::new(&self.seat.padding)?;
        let clone = stream.try_clone()?;
        let timing = self.begin(role, passage.pieces, now);
        let reading = ReadyStream::new(stream, self, timing);
        let cache = &passage.shared.digests;
        let ahead = ReadAhead::new(reading, cache, timing.observer(), room);
        let blocks = passage.short_blocks;
        let reader = Padded::new(Side::Peer, ahead, blocks, padding, incoming);
        let queue = Queue::new(alloc, ReadyStream::new(clone, self, timing));
        let padded = Padded::new(Side::Engine, queue, blocks, padding, outgoing);
        Ok((reader, SeatWriter::new(padded, self)))
    }

    /// A connection begins here: nothing has passed.
    fn begin(&self, role: Role, pieces: u32, now: Instant) -> Timed<'_> {
        self.seat.sent.set(0);
        self.marks.set(Some(Marks::new(now)));
        self.seat.timing.begin(role, pieces, now)
    }
}
