//! A session ends where a device of its engine refuses a write: the block stays wanted, so its peer would be
//! asked for it again and again.
use std::cell::Cell;

/// Whether a write failed since the connection began. Devices ring it, and the reader of the connection hears
/// it. What lies in a cell no clause knows.
#[derive(Drop)]
pub struct Alarm {
    rings: Cell<bool>,
    has_rung: Cell<bool>,
}

impl Alarm {
    /// An alarm that does not ring, and never rang.
    pub fn new() -> Self {
        Alarm {
            rings: Cell::new(false),
            has_rung: Cell::new(false),
        }
    }

    /// Rings, until it is stopped.
    pub fn ring(&self) {
        self.rings.set(true);
        self.has_rung.set(true);
    }

    /// Lets it ring no more, as for a connection that begins.
    pub fn stop(&self) {
        self.rings.set(false);
    }

    /// Whether it rang since it was made or stopped last.
    pub fn is_ringing(&self) -> bool {
        self.rings.get()
    }

    /// Whether it ever rang, also for a connection before this one.
    pub fn has_rung(&self) -> bool {
        self.has_rung.get()
    }
}
