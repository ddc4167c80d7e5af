//! What goes out to a peer, and waits where it takes nothing now.
ghost use Rattle.std.specs.Prelude.{◌≡◌};

use crate::ready_stream::ReadyStream;
use crate::seats::Place;
use bt_connection::{Padded, Queue};
use bt_swarm::QueuedWriter;
use std::io::{self, ErrorKind, Write};
use std::marker::Model;

/// What is written to a connection, as its peer gets it. All waits in memory, 4 MiB at most, until the socket takes it.
#[derive(Drop)]
pub struct SeatWriter<'a, S> {
    padded: Padded<'a, Queue<ReadyStream<'a, S>>>,
    place: &'a Place,
    /// Whether a part of what was put may lack: nothing is passed on any more.
    is_broken: bool,
}

impl<'a, S> Model for SeatWriter<'a, S> {
    ghost use Rattle.bt_connection.specs.Padded.{PaddedState};
    ghost use Rattle.bt_connection.specs.Queue.{Waiting};

    ghost Value = { PaddedState (Waiting S) };

    ghost view = { λ w. w.padded };
}

impl<'a, S> SeatWriter<'a, S> {
    /// The way out of a connection at this place.
    pub(crate) fn new(padded: Padded<'a, Queue<ReadyStream<'a, S>>>, place: &'a Place) -> Self
        ensures { result ≡ padded.entry }
    {
        SeatWriter {
            padded,
            place,
            is_broken: false,
        }
    }

    /// The answer of a call, after which it is noted how many bytes wait.
    fn answered<T>(&self, answer: io::Result<T>) -> io::Result<T>
        ensures { result ≡ answer }
    {
        self.place.note_waiting(self.padded.waiting());
        answer
    }

    /// Errors: BrokenPipe where a part of what was put may lack.
    fn look(&self) -> io::Result<()> {
        if self.is_broken {
            return Err(io::Error::from(ErrorKind::BrokenPipe));
        }
        Ok(())
    }
}

// What waits depends on what is remembered of the peer, so it is not known.
impl<'a, S: Write> QueuedWriter for SeatWriter<'a, S> {
    ghost use Rattle.std.specs.Prelude.{⊤, None};

    ghost contents = { λ _. None };

    ghost has_failed = { λ _. ⊤ };

    /// Errors: OutOfMemory; BrokenPipe where more than 4 MiB would wait, or where a put before this failed. After either
    /// nothing is passed on any more.
    fn put(&mut self, bytes: &[u8]) -> io::Result<()> {
        self.look()?;
        let answer = self.padded.write_all(bytes);
        self.is_broken = answer.is_err();
        self.answered(answer)
    }

    /// Errors: those of the socket, but that it would have to wait; BrokenPipe where a put failed.
    fn drain(&mut self) -> io::Result<bool> {
        self.look()?;
        let answer = self.padded.drain();
        self.answered(answer)
    }

    fn waiting(&self) -> usize {
        self.padded.waiting()
    }
}
