//! The line of progress, on a writer.
ghost use Rattle.std.specs.Prelude.{◌≡◌, ◌≤◌, ◌↔◌, ◌^◌, ◌-◌, min, IsTrue};
ghost use Rattle.bt_progress.specs.Due.{millis_between};

use crate::file_call::FileCall;
use crate::line::progress_line;
use crate::meter::Meter;
use std::alloc::{AllocError, Global};
use std::io::Write;
use std::time::Instant;

/// How many milliseconds pass at least from one writing of the line to the next.
const PAUSE: u128 = 250;

/// Goes to the line's front, and clears it.
const CLEARED: &str = "\r\x1b[K";

/// Has a terminal cut what is wider than it is, and no longer.
const CUT: &str = "\x1b[?7l";

const WRAPPED: &str = "\x1b[?7h";

/// When work began, and when its line was last written.
#[derive(Clone, Copy)]
struct Times {
    began: Instant,
    shown: Instant,
}

/// The line of progress on a writer, and the work that it tells of.
#[derive(Drop)]
pub(crate) struct Screen<W> {
    writer: W,
    /// The calls whose bytes count: none before work begins.
    call: Option<FileCall>,
    meter: Meter,
    /// How many peers are there: none where they come one after the other.
    peers: Option<usize>,
    times: Option<Times>,
    is_shown: bool,
}

impl<W: Write> Screen<W> {
    /// A screen that nothing is written on, of no work.
    pub(crate) fn new(writer: W) -> Self {
        Screen {
            writer,
            call: None,
            meter: Meter::new(),
            peers: None,
            times: None,
            is_shown: false,
        }
    }

    pub(crate) fn begin(&mut self, call: FileCall) {
        self.call = Some(call);
        self.meter = Meter::new();
        self.times = None;
    }

    pub(crate) fn set_peers(&mut self, peers: Option<usize>) {
        self.peers = peers;
    }

    pub(crate) fn expect(&mut self, bytes: u64) {
        self.meter = self.meter.expect(bytes);
    }

    /// Counts bytes. Whether the time is to be asked for: at the first bytes, and once for each MiB from there
    /// on, since the clock is asked more slowly than a device is read.
    pub(crate) fn count(&mut self, call: FileCall, bytes: u64) -> bool {
        if self.call != Some(call) {
            return false;
        }
        let before = self.meter;
        self.meter = before.advance(bytes);
        self.times.is_none() || self.meter.is_mebibyte_on(before)
    }

    /// Writes the line where it is due.
    pub(crate) fn tick(&mut self, alloc: Global, now: Instant) {
        let Some(times) = self.times else {
            self.times = Some(Times {
                began: now,
                shown: now,
            });
            return;
        };
        if is_due(times.shown, now) {
            self.times = Some(Times {
                began: times.began,
                shown: now,
            });
            self.show(alloc, millis_between(times.began, now));
        }
    }

    fn show(&mut self, alloc: Global, millis: u64) {
        if let Ok(text) = shown_line(alloc, self.meter, self.peers, millis) {
            // by one write, since a program that is stopped between two would leave the terminal so
            let _ = self.writer.write_all(text.as_bytes());
            self.is_shown = true;
        }
    }

    /// Takes the line away.
    pub(crate) fn clear(&mut self) {
        if self.is_shown {
            let _ = self.writer.write_all(CLEARED.as_bytes());
            self.is_shown = false;
        }
    }

    /// Writes a text in the line's place.
    pub(crate) fn say(&mut self, text: &str) {
        self.clear();
        let _ = self.writer.write_all(text.as_bytes());
    }
}

/// The line as it is written on a terminal, which cuts it where it is too wide.
fn shown_line(
    alloc: Global,
    meter: Meter,
    peers: Option<usize>,
    millis: u64,
) -> Result<String, AllocError> {
    let line = progress_line(alloc, meter, peers, millis)?;
    format!(in alloc; "{CLEARED}{CUT}{line}{WRAPPED}")
}

/// Whether the line is to be written anew, that was written last at `last`: at most four times a second.
pub fn is_due(last: Instant, now: Instant) -> bool
    ensures { IsTrue result ↔ (250 ≤ millis_between last now) }
{
    now.duration_since(last).as_millis() >= PAUSE
}

/// How many whole milliseconds have passed, in 64 bits.
fn millis_between(earlier: Instant, later: Instant) -> u64
    ensures { result ≡ min (2 ^ 64 - 1) (millis_between earlier later) }
{
    later
        .duration_since(earlier)
        .as_millis()
        .min(u64::MAX as u128) as u64
}
