//! What a program tells beside its results, on standard error.

use crate::file_call::{FileCall, fault_line};
use crate::hint::hint_line;
use crate::screen::Screen;
use crate::watch::Watch;
use std::alloc::Global;
use std::cell::{Cell, RefCell};
use std::io::Write;
use std::time::{Clock, Instant};

/// Tells of work on a writer, by a clock: on a terminal how far it is, in one line that is written at most four
/// times a second and taken away at the end; and calls that failed, where that is wanted.
///
/// What lies in a cell no clause knows, so none says what is written. Where it can't be written, it is not.
#[derive(Drop)]
pub struct Console<'a, C, W> {
    alloc: Global,
    clock: &'a C,
    is_terminal: bool,
    is_verbose: Cell<bool>,
    /// Whether nothing more is told.
    is_silent: Cell<bool>,
    /// Why the last call of the system failed: none where it did not.
    reason: Cell<Option<&'static str>>,
    screen: RefCell<Screen<W>>,
}

impl<'a, C: Clock, W: Write> Console<'a, C, W> {
    /// A console that has not told anything, on a writer that is a terminal or not.
    pub fn new(alloc: Global, clock: &'a C, writer: W, is_terminal: bool) -> Self {
        Console {
            alloc,
            clock,
            is_terminal,
            is_verbose: Cell::new(false),
            is_silent: Cell::new(false),
            reason: Cell::new(None),
            screen: RefCell::new(Screen::new(writer)),
        }
    }

    /// Notes why the last call of the system failed, or that it did not. A fault that is told next is told with it.
    pub fn note(&self, reason: Option<&'static str>) {
        self.reason.set(reason);
    }

    /// Tells nothing more from here on, since nobody reads the results.
    pub fn silence(&self) {
        self.is_silent.set(true);
    }

    /// Whether nothing more is told.
    pub fn is_silent(&self) -> bool {
        self.is_silent.get()
    }

    /// Writes a text in the place of the line of progress.
    fn say(&self, text: &str) {
        if self.is_silent.get() {
            return;
        }
        if let Ok(mut screen) = self.screen.try_borrow_mut() {
            screen.say(text);
        }
    }
}

impl<'a, C: Clock, W: Write> Watch for Console<'a, C, W> {
    fn is_verbose(&self) -> bool {
        self.is_terminal || self.is_verbose.get()
    }

    fn set_verbose(&self, verbose: bool) {
        self.is_verbose.set(verbose);
    }

    fn tell_fault(&self, call: FileCall, name: &str) {
        let reason = self.reason.take();
        if let Ok(line) = fault_line(self.alloc, call, name, reason) {
            self.say(line.as_str());
        }
    }

    fn is_terminal(&self) -> bool {
        self.is_terminal
    }

    fn tell(&self, text: &str) {
        if let Ok(line) = hint_line(self.alloc, text) {
            self.say(line.as_str());
        }
    }

    fn hint(&self, text: &str) {
        if self.is_verbose() {
            self.tell(text);
        }
    }

    fn begin(&self, call: FileCall) {
        if let Ok(mut screen) = self.screen.try_borrow_mut() {
            screen.begin(call);
        }
    }

    fn expect(&self, bytes: u64) {
        if let Ok(mut screen) = self.screen.try_borrow_mut() {
            screen.expect(bytes);
        }
    }

    fn advance(&self, call: FileCall, bytes: u64) {
        if !self.is_terminal {
            return;
        }
        if let Ok(mut screen) = self.screen.try_borrow_mut() {
            if screen.count(call, bytes) {
                if let Ok(now) = Instant::now(self.clock) {
                    screen.tick(self.alloc, now);
                }
            }
        }
    }

    fn set_peers(&self, peers: Option<usize>) {
        if let Ok(mut screen) = self.screen.try_borrow_mut() {
            screen.set_peers(peers);
        }
    }

    fn clear(&self) {
        if let Ok(mut screen) = self.screen.try_borrow_mut() {
            screen.clear();
        }
    }
}
