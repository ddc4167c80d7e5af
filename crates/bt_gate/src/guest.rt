//! Those who are at a gate.

use crate::seats::Place;
use std::net::SocketAddr;
use std::time::Instant;

/// Who is at a place.
#[derive(Drop)]
pub(crate) struct Guest<S> {
    /// A handle of the socket, by which leave is taken.
    pub(crate) stream: S,
    /// By which the door knows the peer.
    pub(crate) number: usize,
    pub(crate) address: SocketAddr,
    /// When it came, by the system's clock.
    pub(crate) came: Option<Instant>,
    /// Whether it waited for its turn when that was looked at last.
    waited: bool,
}

impl<S> Guest<S> {
    /// One who comes, and waits for no turn yet.
    pub(crate) fn new(
        stream: S,
        number: usize,
        address: SocketAddr,
        came: Option<Instant>,
    ) -> Self {
        Guest {
            stream,
            number,
            address,
            came,
            waited: false,
        }
    }

    /// Whether the one who is at this place has begun to wait for its turn since that was looked at last.
    pub(crate) fn begins_to_wait(&mut self, place: &Place) -> bool {
        let waited = self.waited;
        self.waited = place.timing().waits_for_turn();
        self.waited && !waited
    }
}
