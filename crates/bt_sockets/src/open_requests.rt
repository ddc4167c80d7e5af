//! The requests of blocks that are open to a peer.
ghost use Rattle.std.specs.Prelude.{◌≡◌, ◌↔◌, ◌<◌, ◌≤◌, [], length, take, Contains, HoldsAt, IfSome, IfNone, IsTrue};
ghost use Rattle.std.specs.Bool.{OnTrue, OnFalse};
ghost use Rattle.bt_book.specs.Book.{max_requests};
ghost use Rattle.bt_sockets.specs.OpenSteps.{IsOpened, IsWithout};

use bt_book::MAX_REQUESTS;
use bt_wire::Ask;

/// The ranges that were asked for, each noted once, and that have not come: as many at most as an engine asks one peer
/// for.
#[derive(Clone, Copy)]
pub(crate) struct OpenRequests {
    asks: [Ask; MAX_REQUESTS],
    /// How many of these are open, the first ones.
    count: usize,
    ghost within: { count ≤ max_requests },
}

impl OpenRequests {
    /// No request is open.
    pub(crate) fn new() -> Self
        ensures { result.count ≡ 0 }
    {
        let nothing = Ask {
            piece: 0,
            begin: 0,
            length: 0,
        };
        OpenRequests {
            asks: [nothing; MAX_REQUESTS],
            count: 0,
        }
    }

    /// Whether none is open.
    pub(crate) fn is_empty(&self) -> bool
        ensures { IsTrue result ↔ (take self.now.count self.now.asks ≡ []) }
    {
        self.count == 0
    }

    /// Opens one; where it is open already, or there is no room for it, nothing changes.
    pub(crate) fn insert(&mut self, ask: Ask)
        ensures { IsOpened (take self.old.count self.old.asks) ask
            (take self.new.count self.new.asks) }
    {
        if self.count == MAX_REQUESTS || self.index_of(ask).is_some() {
            return;
        }
        self.asks[self.count] = ask;
        self.count += 1;
    }

    /// Closes one, and says whether it was open.
    pub(crate) fn remove(&mut self, ask: Ask) -> bool
        ensures was { IsTrue result ↔ Contains (take self.old.count self.old.asks) ask }
        ensures now { OnTrue result (IsWithout (take self.old.count self.old.asks) ask
            (take self.new.count self.new.asks)) }
        ensures kept { OnFalse result (self.new ≡ self.old) }
    {
        let Some(index) = self.index_of(ask) else {
            return false;
        };
        self.count -= 1;
        self.asks[index] = self.asks[self.count];
        true
    }

    /// Where this range stands first.
    fn index_of(&self, ask: Ask) -> Option<usize>
        ensures within { IfSome result (λ i. i < length (take self.now.count self.now.asks)) }
        ensures here { IfSome result (HoldsAt (λ other. other ≡ ask)
            (take self.now.count self.now.asks)) }
        ensures none { IfNone result (¬ Contains (take self.now.count self.now.asks) ask) }
    {
        self.asks[..self.count]
            .iter()
            .position(|other| *other == ask)
    }
}
