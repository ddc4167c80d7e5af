//! What a gate in memory tells of its calls, in their order.

use crate::sessions::{tell_end, tell_written};
use bt_rows::RowError;
use bt_session::SessionEnd;
use std::alloc::{AllocError, Global};
use std::cell::{Cell, RefCell};
use std::fmt::Write;

/// What happens with a connection.
#[derive(Clone, Copy)]
pub enum Happening<'a> {
    /// It has this place.
    Comes(usize),
    /// A read of it gives so many bytes; none at its end.
    Gives(usize),
    /// A read of it would wait, or is interrupted.
    GivesNothing,
    /// A read of it fails.
    Fails,
    /// These bytes are put into its way out.
    Gets(&'a [u8]),
    /// Its way out takes no more.
    Refuses,
    /// It takes so many of the bytes that wait.
    Takes(usize),
    /// It goes.
    Goes(SessionEnd),
}

/// What happened so far, a line each, below the number of its round.
#[derive(Drop)]
pub struct Tale {
    alloc: Global,
    text: RefCell<String>,
    round: Cell<u64>,
    /// Whether it was not to be waited in this round.
    is_at_once: Cell<bool>,
    /// Whether nothing is told yet of this round.
    is_new: Cell<bool>,
    /// After how many rounds no connection takes or comes any more.
    rounds: u64,
    is_brief: bool,
    /// Whether something was lost, for want of memory, or a call is made that none may make.
    has_failed: Cell<bool>,
}

impl Tale {
    pub fn new(alloc: Global, rounds: u64, is_brief: bool) -> Self {
        Tale {
            alloc,
            text: RefCell::new(String::new(alloc)),
            round: Cell::new(0),
            is_at_once: Cell::new(false),
            is_new: Cell::new(false),
            rounds,
            is_brief,
            has_failed: Cell::new(false),
        }
    }

    pub fn begin_round(&self, at_once: bool) {
        self.round.set(self.round.get().saturating_add(1));
        self.is_at_once.set(at_once);
        self.is_new.set(true);
    }

    /// How many rounds began.
    pub fn round(&self) -> u64 {
        self.round.get()
    }

    /// Whether it is over with all connections.
    pub fn is_late(&self) -> bool {
        self.round.get() > self.rounds
    }

    /// Adds what happens with the connection of this number, unless that is not to be told.
    pub fn add(&self, number: usize, happening: Happening<'_>) {
        if self.is_brief {
            return;
        }
        let is_added = match self.text.try_borrow_mut() {
            Ok(mut guard) => self.push(&mut *guard, number, happening).is_ok(),
            Err(_) => false,
        };
        if !is_added {
            self.fail();
        }
    }

    /// Something is lost, for want of memory, or a call is made that none may make.
    pub fn fail(&self) {
        self.has_failed.set(true);
    }

    /// Adds all to an answer. Errors: `Failed`, where something was; out of memory.
    pub fn tell(&self, out: &mut String) -> Result<(), RowError> {
        let Ok(guard) = self.text.try_borrow() else {
            return Err(RowError::Failed);
        };
        if self.has_failed.get() {
            return Err(RowError::Failed);
        }
        Ok(out.push_str(guard.as_str())?)
    }

    fn push(
        &self,
        text: &mut String,
        number: usize,
        happening: Happening<'_>,
    ) -> Result<(), AllocError> {
        if self.is_new.replace(false) {
            let at_once = if self.is_at_once.get() {
                " at once"
            } else {
                ""
            };
            writeln!(text, "round {}{at_once}", self.round.get())?;
        }
        write!(text, "{number} ")?;
        push_happening(self.alloc, text, happening)
    }
}

fn push_happening(
    alloc: Global,
    text: &mut String,
    happening: Happening<'_>,
) -> Result<(), AllocError> {
    match happening {
        Happening::Comes(place) => writeln!(text, "comes to {place}"),
        Happening::Gives(count) => writeln!(text, "gives {count}"),
        Happening::GivesNothing => text.push_str("gives nothing\n"),
        Happening::Fails => text.push_str("fails\n"),
        Happening::Gets(bytes) => push_got(alloc, text, bytes),
        Happening::Refuses => text.push_str("takes no more\n"),
        Happening::Takes(count) => writeln!(text, "takes {count}"),
        Happening::Goes(end) => push_end(text, end),
    }
}

fn push_got(alloc: Global, text: &mut String, bytes: &[u8]) -> Result<(), AllocError> {
    text.push_str("gets ")?;
    tell_written(alloc, text, bytes)
}

fn push_end(text: &mut String, end: SessionEnd) -> Result<(), AllocError> {
    text.push_str("goes ")?;
    tell_end_code(text, end)?;
    text.push_str("\n")
}

/// Adds how it ended with a connection, of what it was closed for the code alone.
pub fn tell_end_code(text: &mut String, end: SessionEnd) -> Result<(), AllocError> {
    match end {
        SessionEnd::Closed(why) => write!(text, "closed {}", why.code()),
        end => tell_end(text, &Ok(end)),
    }
}
