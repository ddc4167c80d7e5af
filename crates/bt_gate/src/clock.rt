//! The time that counts for those at a gate.

ghost use Rattle.std.specs.Prelude.{◌≡◌, ◌+◌, ◌-◌};
ghost use Rattle.std.specs.Duration.{as_nanos};
ghost use Rattle.std.specs.Time.{instant_nanos, FitsClock};
ghost use Rattle.bt_sockets.specs.TimingSteps.{HavePassed};
ghost use Rattle.bt_gate.specs.Clock.{CountsAll, CountsNothing};

use bt_sockets::WORK_SECONDS;
use std::time::{Duration, Instant};

/// The clock of a gate. All goes by it that counts for a peer: the time for which sockets were waited for, and work that
/// took less than `WORK_SECONDS`. While longer work is done, as a flush, or while this program is stopped at it, it stands
/// still; a stop while sockets are waited for counts as waiting does.
#[derive(Clone, Copy)]
pub(crate) struct GateClock {
    /// When the system's clock was looked at last,
    looked: Instant,
    /// and what this clock showed then.
    counted: Instant,
}

impl GateClock {
    /// A clock that shows what the system's does.
    pub(crate) fn new(now: Instant) -> Self
        ensures { result ≡ record { looked = now; counted = now } }
    {
        GateClock {
            looked: now,
            counted: now,
        }
    }

    /// What it shows.
    pub(crate) fn now(&self) -> Instant
        ensures { result ≡ self.now.counted }
    {
        self.counted
    }

    /// Work is over that began when the clock was looked at last. Says how much of it counts.
    pub(crate) fn work(&mut self, now: Instant) -> Duration
        ensures long { HavePassed WORK_SECONDS self.old.looked now
            → CountsNothing self.old now self.new }
        ensures short { ¬ HavePassed WORK_SECONDS self.old.looked now
            → CountsAll self.old now self.new }
        ensures told { instant_nanos self.new.counted ≡ instant_nanos self.old.counted
            + as_nanos result }
    {
        let passed = now.duration_since(self.looked);
        self.looked = now;
        if passed >= Duration::from_secs(WORK_SECONDS) {
            return Duration::ZERO;
        }
        self.count(passed)
    }

    /// Sockets were waited for since the clock was looked at last. All of it counts, however long: says how much.
    pub(crate) fn wait(&mut self, now: Instant) -> Duration
        ensures counted { CountsAll self.old now self.new }
        ensures told { instant_nanos self.new.counted ≡ instant_nanos self.old.counted
            + as_nanos result }
    {
        let passed = now.duration_since(self.looked);
        self.looked = now;
        self.count(passed)
    }

    /// Goes on by this time, and says by how much it did.
    fn count(&mut self, passed: Duration) -> Duration
        ensures counted { FitsClock (instant_nanos self.old.counted + as_nanos passed)
            → instant_nanos self.new.counted ≡ instant_nanos self.old.counted + as_nanos passed }
        ensures told { instant_nanos self.new.counted ≡ instant_nanos self.old.counted
            + as_nanos result }
        ensures looked { self.new.looked ≡ self.old.looked }
    {
        match self.counted.checked_add(passed) {
            Some(later) => {
                self.counted = later;
                passed
            }
            None => Duration::ZERO,
        }
    }
}
