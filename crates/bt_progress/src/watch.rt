//! Where work tells of itself, beside its results.

use crate::file_call::FileCall;

/// Where work that may take long, or meet a fault, tells of itself beside its results. No clause says what is
/// told.
pub trait Watch {
    /// Whether each call that failed is told, by the name of its file, and hints are given: at a terminal, and where
    /// that was asked for. Else no names are kept for it.
    fn is_verbose(&self) -> bool;

    fn set_verbose(&self, verbose: bool);

    /// Tells that a call failed, of what has this name.
    fn tell_fault(&self, call: FileCall, name: &str);

    /// Whether somebody may look on at a terminal.
    fn is_terminal(&self) -> bool;

    /// Tells why there will be no result, in a line of its own, whether somebody may look on or not.
    fn tell(&self, text: &str);

    /// Gives a hint in a line of its own, at a terminal and where that was asked for.
    fn hint(&self, text: &str);

    /// Tells that work begins whose bytes are those that go through such calls.
    fn begin(&self, call: FileCall);

    /// Tells that `bytes` bytes more are to be done.
    fn expect(&self, bytes: u64);

    /// Tells that `bytes` bytes went through such a call.
    fn advance(&self, call: FileCall, bytes: u64);

    /// Tells how many peers are there: none where they come one after the other.
    fn set_peers(&self, peers: Option<usize>);

    /// Takes the line of progress away, before a line of results is written.
    fn clear(&self);
}

/// Nobody is told anything.
#[derive(Clone, Copy, Debug)]
pub struct Unwatched;

impl Watch for Unwatched {
    fn is_verbose(&self) -> bool {
        false
    }

    fn set_verbose(&self, _verbose: bool) {}

    fn tell_fault(&self, _call: FileCall, _name: &str) {}

    fn is_terminal(&self) -> bool {
        false
    }

    fn tell(&self, _text: &str) {}

    fn hint(&self, _text: &str) {}

    fn begin(&self, _call: FileCall) {}

    fn expect(&self, _bytes: u64) {}

    fn advance(&self, _call: FileCall, _bytes: u64) {}

    fn set_peers(&self, _peers: Option<usize>) {}

    fn clear(&self) {}
}
