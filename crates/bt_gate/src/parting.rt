//! Leave is taken of those that go, and nobody waits for it.

use bt_sockets::{PARTING_LEN, PARTING_MILLIS, take_part};
use std::alloc::Global;
use std::io::{ErrorKind, Read};
use std::net::{OpenStream, Shutdown};
use std::time::{Duration, Instant};

/// How many are heard out at once. Of a further one no leave is taken.
const MOST: usize = 64;

/// A peer that is heard out.
#[derive(Drop)]
struct Leaver<S> {
    stream: S,
    /// How many bytes are taken of it at most,
    left: usize,
    /// and since when it is heard.
    begun: Instant,
}

/// Those that were told that nothing more comes, and are heard until they close too, for `PARTING_MILLIS` and
/// `PARTING_LEN` bytes each at most: a socket that is closed while bytes wait in it resets the connection, and what is on its
/// way to the peer is lost then.
#[derive(Drop)]
pub(crate) struct Partings<S> {
    leavers: Vec<Leaver<S>>,
}

impl<S: Read + OpenStream + Drop> Partings<S> {
    /// Nobody leaves.
    pub(crate) fn new(alloc: Global) -> Self {
        Partings {
            leavers: Vec::new(alloc),
        }
    }

    /// Whether nobody leaves.
    pub(crate) fn is_empty(&self) -> bool {
        self.leavers.is_empty()
    }

    /// Tells a peer that nothing more comes, and hears it out from now on. Where its socket is not there any more, there
    /// is no memory for it, or too many are heard, it is closed.
    pub(crate) fn part(&mut self, stream: S, now: Instant) {
        if self.leavers.len() >= MOST || stream.shutdown(Shutdown::Write).is_err() {
            return;
        }
        let _ = self.leavers.push(Leaver {
            stream,
            left: PARTING_LEN,
            begun: now,
        });
    }

    /// Takes what has come of each, and closes those that are heard out.
    pub(crate) fn hear(&mut self, now: Instant) {
        for at in (0..self.leavers.len()).rev() {
            if self.hear_at(at, now) {
                self.close_at(at);
            }
        }
    }

    /// Closes one.
    fn close_at(&mut self, at: usize) {
        if at < self.leavers.len() {
            self.leavers.swap_remove(at);
        }
    }

    /// Takes what has come of one: whether it is heard out.
    fn hear_at(&mut self, at: usize, now: Instant) -> bool {
        match self.leavers.get_mut(at) {
            Some(leaver) => hear_one(leaver, now),
            None => false,
        }
    }
}

/// Takes what has come of one: whether it is heard out.
fn hear_one<S: Read>(leaver: &mut Leaver<S>, now: Instant) -> bool {
    if now.duration_since(leaver.begun) >= Duration::from_millis(PARTING_MILLIS) {
        return true;
    }
    for _ in 0..PARTING_LEN {
        if let Some(is_over) = hear_more(leaver) {
            return is_over;
        }
    }
    true
}

/// Reads once of one: whether it is heard out, or has sent no more yet. None: it may have sent more.
fn hear_more<S: Read>(leaver: &mut Leaver<S>) -> Option<bool> {
    match take_part(&mut leaver.stream, leaver.left) {
        Ok(0) => Some(true),
        Ok(count) => {
            leaver.left = leaver.left.saturating_sub(count);
            None
        }
        Err(error) => Some(error.kind() != ErrorKind::WouldBlock),
    }
}
