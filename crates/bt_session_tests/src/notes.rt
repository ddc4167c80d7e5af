//! What is told of bytes that are read ahead.

use bt_connection::{Arrival, Observer};
use bt_rows::RowError;
use std::alloc::{AllocError, Global};
use std::cell::{Cell, RefCell};
use std::fmt::Write;

/// Nobody is told.
#[derive(Clone, Copy)]
pub struct Untold;

impl Observer for Untold {
    fn came(&self, _arrival: Arrival) {}
}

/// Notes what came, and how many bytes had been read by then.
#[derive(Drop)]
pub struct Notes<'a> {
    text: RefCell<String>,
    read: &'a Cell<usize>,
    /// Whether a note was lost, for want of memory.
    is_cut: Cell<bool>,
}

impl<'a> Notes<'a> {
    pub fn new(alloc: Global, read: &'a Cell<usize>) -> Self {
        Notes {
            text: RefCell::new(String::new(alloc)),
            read,
            is_cut: Cell::new(false),
        }
    }

    /// All notes; `-` where there are none.
    pub fn text(&self, alloc: Global) -> Result<String, RowError> {
        let Ok(guard) = self.text.try_borrow() else {
            return Err(RowError::Failed);
        };
        if self.is_cut.get() {
            return Err(RowError::Failed);
        }
        if guard.is_empty() {
            return Ok(String::from_str(alloc, "-")?);
        }
        Ok(guard.clone()?)
    }
}

impl Observer for Notes<'_> {
    fn came(&self, arrival: Arrival) {
        let is_noted = match self.text.try_borrow_mut() {
            Ok(mut guard) => note(&mut *guard, arrival, self.read.get()).is_ok(),
            Err(_) => false,
        };
        if !is_noted {
            self.is_cut.set(true);
        }
    }
}

fn note(text: &mut String, arrival: Arrival, read: usize) -> Result<(), AllocError> {
    if !text.is_empty() {
        text.push_str(" ")?;
    }
    match arrival {
        Arrival::Handshake => text.push_str("hello"),
        Arrival::KeepAlive => text.push_str("alive"),
        Arrival::Bits(count) => write!(text, "bits:{count}"),
        Arrival::Block(ask) => { write!(text, "block:{}:{}:{}", ask.piece, ask.begin, ask.length) }
        Arrival::Message(kind) => write!(text, "{kind}"),
    }?;
    write!(text, "@{read}")
}
