//! How much of some work is done.
ghost use Rattle.std.specs.Prelude.{◌≡◌, ◌<◌, ◌↔◌, IsTrue};
ghost use Rattle.bt_progress.specs.Meter.{count_with, mebibytes, percent, rate};

const MEBIBYTE: u64 = 1 << 20;

/// How many bytes are done, and how many are to be done in all: 0 where that is not known.
#[derive(Clone, Copy, Debug, PartialEq, Eq)]
pub struct Meter {
    pub done: u64,
    pub all: u64,
}

impl Meter {
    /// Nothing is done, and nothing is known of what is to be.
    pub fn new() -> Meter
        ensures done { result.done ≡ 0 }
        ensures all { result.all ≡ 0 }
    {
        Meter { done: 0, all: 0 }
    }

    /// The same work, of which `bytes` bytes more are to be done.
    pub fn expect(self, bytes: u64) -> Meter
        ensures done { result.done ≡ self.done }
        ensures all { result.all ≡ count_with self.all bytes }
    {
        Meter {
            done: self.done,
            all: self.all.saturating_add(bytes),
        }
    }

    /// The same work, of which `bytes` bytes more are done.
    pub fn advance(self, bytes: u64) -> Meter
        ensures done { result.done ≡ count_with self.done bytes }
        ensures all { result.all ≡ self.all }
    {
        Meter {
            done: self.done.saturating_add(bytes),
            all: self.all,
        }
    }

    /// Whether the bytes done have reached a further MiB since an earlier state.
    pub(crate) fn is_mebibyte_on(self, earlier: Meter) -> bool
        ensures { IsTrue result ↔ (mebibytes earlier.done < mebibytes self.done) }
    {
        earlier.done / MEBIBYTE < self.done / MEBIBYTE
    }

    /// How many hundredths are done, where it is known what is to be; 100 at most.
    pub(crate) fn percent(self) -> u128
        requires { 0 < self.all }
        ensures { result ≡ percent self.done self.all }
    {
        (self.done as u128 * 100 / self.all as u128).min(100)
    }

    /// How many bytes were done a second, in `millis` milliseconds.
    pub(crate) fn rate(self, millis: u64) -> u128
        ensures { result ≡ rate self.done millis }
    {
        self.done as u128 * 1000 / millis.max(1) as u128
    }
}
