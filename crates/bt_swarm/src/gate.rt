//! Where connections come from, and their ways out.
ghost use Rattle.std.specs.Prelude.{[], ◌≡◌, ℕ, ◌+◌, ◌-◌, ◌<◌, ◌^◌, true, List, ◌∷◌, ◌++◌, Option, IfSome, OnOk, OnErr};
ghost use Rattle.std.specs.Io.KnownBytes.{Appends, Keeps};
ghost use Rattle.bt_swarm.specs.Passing.{Passing, came_by, went};

use bt_session::{SessionEnd, WatchedReader};
use std::io;

/// A way out of a connection, which takes all that is put into it and passes it on as the peer takes it.
///
/// Of a socket it can't be told when a call fails, so of each way out that there is `has_failed` is true, as
/// `is_troubled` of each gate. What cites them says something only of the code of this crate, which is proved whatever
/// they may be: that it tells of a fault only where a call failed, or the gate told of one.
pub trait QueuedWriter {
    /// What was put into it, where that is known.
    ghost contents: { Self → Option (List ℕ) };

    /// Its last call failed.
    ghost has_failed: { Self → Type 0 };

    /// Puts bytes behind the others, all or none. Errors: `OutOfMemory`; any other, where no more may wait.
    fn put(&mut self, bytes: &[u8]) -> io::Result<()>
        ensures behind { OnOk result (Appends (contents self.old) (contents self.new) bytes.now) }
        ensures kept { OnErr result (Keeps (contents self.old) (contents self.new)) }
        ensures failed { OnErr result (has_failed self.new) };

    /// Passes on what the peer takes now: whether nothing waits then. Errors: the connection failed.
    fn drain(&mut self) -> io::Result<bool>
        ensures kept { Keeps (contents self.old) (contents self.new) }
        ensures failed { OnErr result (has_failed self.new) };

    /// How many bytes wait.
    fn waiting(&self) -> usize;
}

/// What is due in a round.
#[derive(Clone, Copy, Debug, PartialEq, Eq)]
pub struct Due {
    /// The peers to serve are to be chosen anew: ten seconds are over since that was due last, or a peer has
    /// become interested while fewer are served than may be.
    pub choice: bool,
}

/// Where connections come from, and which may be looked at. All time is behind it. A connection is known to
/// it by its place, a number below 64 that no other one has then.
///
/// An implementor says by `leads` what it has become by what it gave and was told: as that it wrote a line
/// for each that went. What it is asked is answered at once, but for `wait`.
pub trait Gate {
    type R: WatchedReader + Drop;

    type W: QueuedWriter + Drop;

    /// Which reader and way out a connection may have.
    ghost gives: { Self.R → Self.W → Type 0 };

    /// How often it was waited.
    ghost waits: { Self → ℕ };

    /// Nobody is to come any more.
    ghost is_shut: { Self → Type 0 };

    /// A device has refused a write.
    ghost is_troubled: { Self → Type 0 };

    /// What it may have become when these have come and gone: from what it was, to what it is.
    ghost leads: { Self → List Passing → Self → Type 0 };

    /// Waits until a connection may be read or written to, one is to be accepted, something is due or a
    /// second is over; not at all with `at_once`. Owes no more than to come back: what it says is a hint, and
    /// by it nobody comes or goes.
    fn wait(&mut self, at_once: bool) -> Due
        requires few { waits self.old < 2 ^ 64 - 1 }
        ensures counted { waits self.new ≡ waits self.old + 1 }
        ensures led { leads self.old [] self.new };

    /// Whether nobody is to come any more. Once it has said so, it stays so: `accept` gives nobody from then
    /// on, and no call of `tell` changes it. Where it never says so, a swarm goes on.
    fn is_over(&self) -> bool
        ensures { result ≡ true → is_shut self.now };

    /// Takes a connection that waits, without waiting, and gives it this place, which none has.
    fn accept(&mut self, place: usize) -> Option<(Self::R, Self::W)>
        ensures given { IfSome result (λ ways. gives ways.0 ways.1) }
        ensures counted { waits self.new ≡ waits self.old }
        ensures led { leads self.old (came_by place result) self.new };

    /// Whether a connection may be read now: bytes have come, or a second is over since its last read.
    fn is_ready(&self, place: usize) -> bool;

    /// Whether nothing was written to it for so long that it is to be kept by a message that says nothing.
    fn is_silent(&self, place: usize) -> bool;

    /// Whether a device has refused a write since this was asked last.
    fn has_trouble(&self) -> bool
        ensures { result ≡ true → is_troubled self.now };

    /// The connection at this place went, and this is how it ended: its line is written. Its reader and its
    /// way out are dropped by then, and the place is free. It is told once of each that it gave, of one too
    /// that the engine refused. It cannot fail: an error of a write is kept for later.
    fn tell(&mut self, place: usize, end: SessionEnd)
        ensures counted { waits self.new ≡ waits self.old }
        ensures shut { is_shut self.old → is_shut self.new }
        ensures led { leads self.old (went place end ∷ []) self.new };

    /// It may stay as it is.
    ghost leads_nowhere: { (gate : Self) → leads gate [] gate };

    /// What it becomes by some and then by others, it becomes by all of them.
    ghost leads_on: { (a b c : Self) (first more : List Passing) → leads a first b → leads b more c
        → leads a (first ++ more) c };
}
