//! How a peer is reached.
ghost use Rattle.std.specs.Prelude.{◌≡◌, ℕ, ◌+◌, ◌-◌, ◌<◌, ◌^◌, IfSome};
ghost use Rattle.bt_session.specs.Link.{failure_count};

use crate::watched::{WatchedReader, WatchedWriter};

/// A way to one peer, which may be dialled again and again.
pub trait Link {
    /// What the peer sends is read from it.
    type R: WatchedReader + Drop;

    /// What is sent to the peer is written to it.
    type W: WatchedWriter + Drop;

    /// How often it was dialled.
    ghost dials: { Self → ℕ };

    /// How often that failed.
    ghost failures: { Self → ℕ };

    /// Which reader and writer a dial now may give.
    ghost gives: { Self → Self.R → Self.W → Type 0 };

    /// Dials the peer: gives what the peer sends and what is sent to it, or None where it is not reached.
    fn dial(&mut self) -> Option<(Self::R, Self::W)>
        requires few { dials self.old < 2 ^ 64 - 1 }
        ensures counted { dials self.new ≡ dials self.old + 1 }
        ensures failed { failures self.new ≡ failures self.old + failure_count result }
        ensures given { IfSome result (λ ends. gives self.old ends.0 ends.1) };
}
