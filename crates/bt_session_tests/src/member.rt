//! A connection of a gate in memory.
ghost use Rattle.std.specs.Prelude.{None, ⊤};

use crate::tale::{Happening, Tale};
use bt_connection::Queue;
use bt_session::SessionEnd;
use bt_swarm::QueuedWriter;
use std::alloc::Global;
use std::cell::{Cell, RefCell};
use std::io::{self, Error, ErrorKind, Read, Write};

/// What a read finds.
#[derive(Drop)]
pub enum Finding {
    /// These bytes. Those that a read has no room for are there for the next.
    Bytes(Vec<u8>),
    /// Nothing: it would have to wait.
    Blocks,
    Interrupted,
    Fault,
    /// Nothing; and the connection is not ready in the round that comes then.
    Rests,
}

/// What a peer takes at once of what waits for it.
#[derive(Clone, Copy)]
pub enum Take {
    All,
    /// At most so many bytes.
    Most(usize),
    Fault,
}

/// What a row says of a connection.
#[derive(Drop)]
pub struct Script {
    /// From which round on it waits to be taken.
    pub round: u64,
    /// What its reads find, one after the other. Behind the last it is at its end.
    pub findings: Vec<Finding>,
    /// What its peer takes, one time after the other, of the last as often as it is asked.
    pub takes: Vec<Take>,
    /// How many bytes may wait for it.
    pub holds: usize,
    /// Which call that puts bytes into its way out finds no memory, from 1 on; 0 for none.
    pub memory: u64,
    /// The rounds in which it was silent for long.
    pub silent: Vec<u64>,
}

/// A connection, and how far it is.
#[derive(Drop)]
pub struct Member {
    number: usize,
    pub script: Script,
    place: Cell<Option<usize>>,
    /// Which finding is next, and how many bytes of it were given.
    next: Cell<usize>,
    given: Cell<usize>,
    /// Whether it is not ready in this round.
    rests: Cell<bool>,
    /// How often bytes were put into its way out, and how often its peer was asked to take some.
    puts: Cell<u64>,
    asked: Cell<usize>,
    /// How many bytes it gave and its peer took, and which it got.
    gave: Cell<usize>,
    took: Cell<usize>,
    got: RefCell<Vec<u8>>,
    end: Cell<Option<SessionEnd>>,
}

impl Member {
    pub fn new(alloc: Global, number: usize, script: Script) -> Self {
        Member {
            number,
            script,
            place: Cell::new(None),
            next: Cell::new(0),
            given: Cell::new(0),
            rests: Cell::new(false),
            puts: Cell::new(0),
            asked: Cell::new(0),
            gave: Cell::new(0),
            took: Cell::new(0),
            got: RefCell::new(Vec::new(alloc)),
            end: Cell::new(None),
        }
    }

    pub fn number(&self) -> usize {
        self.number
    }

    /// How it ended; None where it never came, or is still there.
    pub fn end(&self) -> Option<SessionEnd> {
        self.end.get()
    }

    pub fn gave(&self) -> usize {
        self.gave.get()
    }

    pub fn took(&self) -> usize {
        self.took.get()
    }

    /// What was put into its way out.
    pub fn got(&self) -> &RefCell<Vec<u8>> {
        &self.got
    }

    pub fn has_place(&self, place: usize) -> bool {
        self.place.get() == Some(place)
    }

    pub fn is_ready(&self) -> bool {
        !self.rests.get()
    }

    /// It comes, and has this place.
    pub fn come(&self, place: usize) {
        self.place.set(Some(place));
    }

    pub fn go(&self, end: SessionEnd) {
        self.place.set(None);
        self.end.set(Some(end));
    }

    /// Says whether it rests in the round that begins.
    pub fn begin_round(&self) {
        self.rests.set(false);
        if self.place.get().is_some() && self.is_to_rest() {
            self.rests.set(true);
            self.skip();
        }
    }

    fn is_to_rest(&self) -> bool {
        matches!(
            self.script.findings.get(self.next.get()),
            Some(Finding::Rests)
        )
    }

    fn skip(&self) {
        self.next.set(self.next.get().saturating_add(1));
        self.given.set(0);
    }

    /// What a read gives: how many bytes.
    fn find(&self, buffer: &mut [u8]) -> io::Result<usize> {
        if self.rests.get() {
            return Err(Error::from(ErrorKind::WouldBlock));
        }
        match self.script.findings.get(self.next.get()) {
            Some(Finding::Bytes(bytes)) => Ok(self.give(bytes, buffer)),
            Some(Finding::Rests) => Err(Error::from(ErrorKind::WouldBlock)),
            Some(Finding::Blocks) => self.fail(ErrorKind::WouldBlock),
            Some(Finding::Interrupted) => self.fail(ErrorKind::Interrupted),
            Some(Finding::Fault) => self.fail(ErrorKind::ConnectionReset),
            None => Ok(0),
        }
    }

    fn fail(&self, kind: ErrorKind) -> io::Result<usize> {
        self.skip();
        Err(Error::from(kind))
    }

    /// Gives what is left of these bytes, as much as there is room for.
    fn give(&self, bytes: &[u8], buffer: &mut [u8]) -> usize {
        let rest = &bytes[self.given.get().min(bytes.len())..];
        let count = rest.len().min(buffer.len());
        buffer[..count].copy_from_slice(&rest[..count]);
        if count < rest.len() {
            self.given.set(self.given.get().saturating_add(count));
        } else {
            self.skip();
        }
        self.gave.set(self.gave.get().saturating_add(count));
        count
    }

    /// Counts a call that puts bytes into its way out, where so many wait. Errors: it finds no memory, or more would wait
    /// than may.
    fn count_put(&self, waiting: usize) -> io::Result<()> {
        self.puts.set(self.puts.get().saturating_add(1));
        if self.puts.get() == self.script.memory {
            return Err(Error::from(ErrorKind::OutOfMemory));
        }
        if waiting > self.script.holds {
            return Err(Error::from(ErrorKind::QuotaExceeded));
        }
        Ok(())
    }

    /// Keeps bytes that were put into its way out.
    fn keep(&self, bytes: &[u8]) -> bool {
        match self.got.try_borrow_mut() {
            Ok(mut guard) => {
                let got = &mut *guard;
                got.extend_from_slice(bytes).is_ok()
            }
            Err(_) => false,
        }
    }

    /// How many of so many bytes its peer takes now. Errors: the connection failed.
    fn take(&self, most: usize) -> io::Result<usize> {
        let asked = self.asked.get();
        self.asked.set(asked.saturating_add(1));
        let last = self.script.takes.len().saturating_sub(1);
        match self.script.takes.get(asked.min(last)) {
            None | Some(Take::All) => Ok(most),
            Some(Take::Most(0)) => Err(Error::from(ErrorKind::WouldBlock)),
            Some(Take::Most(count)) => Ok(most.min(*count)),
            Some(Take::Fault) => Err(Error::from(ErrorKind::BrokenPipe)),
        }
    }

    fn note_taken(&self, count: usize) {
        self.took.set(self.took.get().saturating_add(count));
    }
}

/// What it gives.
#[derive(Drop)]
pub struct MemberReader<'a> {
    pub member: &'a Member,
    pub tale: &'a Tale,
}

impl Read for MemberReader<'_> {
    fn read(&mut self, buffer: &mut [u8]) -> io::Result<usize> {
        let found = self.member.find(buffer);
        let happening = match &found {
            Ok(count) => Happening::Gives(*count),
            Err(error) if error.kind() == ErrorKind::ConnectionReset => Happening::Fails,
            Err(_) => Happening::GivesNothing,
        };
        self.tale.add(self.member.number(), happening);
        Ok(found?.min(buffer.len()))
    }
}

/// Its peer, who takes what waits.
#[derive(Drop)]
pub struct Taker<'a> {
    member: &'a Member,
    tale: &'a Tale,
}

impl Write for Taker<'_> {
    fn write(&mut self, bytes: &[u8]) -> io::Result<usize> {
        if self.tale.is_late() {
            return Err(Error::from(ErrorKind::TimedOut));
        }
        let count = self.member.take(bytes.len())?;
        let count = count.min(bytes.len());
        self.member.note_taken(count);
        self.tale.add(self.member.number(), Happening::Takes(count));
        Ok(count)
    }

    fn flush(&mut self) -> io::Result<()> {
        Ok(())
    }
}

/// Its way out.
#[derive(Drop)]
pub struct MemberWriter<'a> {
    queue: Queue<Taker<'a>>,
    member: &'a Member,
    tale: &'a Tale,
}

impl<'a> MemberWriter<'a> {
    pub fn new(alloc: Global, member: &'a Member, tale: &'a Tale) -> Self {
        MemberWriter {
            queue: Queue::new(alloc, Taker { member, tale }),
            member,
            tale,
        }
    }

    fn put_counted(&mut self, bytes: &[u8]) -> io::Result<()> {
        let waiting = self.queue.waiting().saturating_add(bytes.len());
        self.member.count_put(waiting)?;
        self.queue.put(bytes)
    }
}

impl QueuedWriter for MemberWriter<'_> {
    ghost contents = { λ _. None };

    ghost has_failed = { λ _. ⊤ };

    fn put(&mut self, bytes: &[u8]) -> io::Result<()> {
        let put = self.put_counted(bytes);
        if put.is_err() {
            self.tale.add(self.member.number(), Happening::Refuses);
            return put;
        }
        if !self.member.keep(bytes) {
            self.tale.fail();
        }
        self.tale.add(self.member.number(), Happening::Gets(bytes));
        put
    }

    fn drain(&mut self) -> io::Result<bool> {
        self.queue.drain()
    }

    fn waiting(&self) -> usize {
        self.queue.waiting()
    }
}
