//! Devices that are written without gaps.
ghost use Rattle.std.specs.Prelude.{◌≡◌, ◌↔◌, false, length, Ok, IfOk};
ghost use Rattle.bt_disk.specs.Limits.{count_after};
ghost use Rattle.bt_log_file.specs.GaplessDisk.{leaves_gap_in, new_gapless};

use bt_disk::{DeviceFault, Disk};
use std::marker::Model;

/// A device that may be one without gaps: then a write fails that begins past the end, and makes no other call of the
/// device inside than to ask for its length, so that no zeros come between. All other calls go to that one.
///
/// A log's file is one: where another program cuts it in mid-run, what is appended next would begin behind zeros, and
/// no run could read it any more.
#[derive(Drop)]
pub struct GaplessDisk<D> {
    inner: D,
    is_gapless: bool,
    /// How many calls it refused: a count that stays at 2^64 - 1.
    refused: u64,
}

impl<D> Model for GaplessDisk<D> {
    ghost use Rattle.bt_log_file.specs.GaplessDisk.{GaplessView};

    ghost Value = { GaplessView D };

    ghost view = { λ d. record {
      inner = d.inner;
      is_gapless = d.is_gapless;
      refused = d.refused;
    } };
}

impl<D> GaplessDisk<D> {
    /// A device that is one without gaps, or that passes each call on.
    pub fn new(inner: D, is_gapless: bool) -> Self
        ensures { result ≡ new_gapless inner is_gapless }
    {
        GaplessDisk {
            inner,
            is_gapless,
            refused: 0,
        }
    }
}

impl<D: Disk> GaplessDisk<D> {
    /// Whether a write from byte `at` on would leave a gap that it may not. Errors: the length is not told.
    fn leaves_gap(&mut self, at: u64) -> Result<bool, DeviceFault>
        ensures gap { let before = D.conduct.history self.old.inner
            in D.conduct.honest self.old.inner → IfOk result
            (λ leaves_gap. leaves_gap ≡ leaves_gap_in self.old (length before.now.bytes) at) }
        ensures same { self.new ≡ record self.old { inner = self.new.inner } }
        ensures plain { self.old.is_gapless ≡ false → (result ≡ Ok false) × (self.new ≡ self.old) }
        ensures as_honest { D.conduct.honest self.old.inner ↔ D.conduct.honest self.new.inner }
        ensures kept { D.conduct.honest self.old.inner
            → D.conduct.history self.new.inner ≡ D.conduct.history self.old.inner }
        ensures counted { D.conduct.faults self.new.inner
            ≡ count_after (D.conduct.faults self.old.inner) result }
    {
        if !self.is_gapless {
            return Ok(false);
        }
        let len = self.inner.len()?;
        Ok(len < at)
    }
}

impl<D: Disk> Disk for GaplessDisk<D> {
    ghost use Rattle.std.specs.Prelude.{◌≡◌, ◌↔◌, ◌≤◌, ◌<◌, true, false, length, IsErr, IfOk};
    ghost use Rattle.bt_disk.specs.Limits.{count_after};
    ghost use Rattle.bt_disk.specs.Calls.{IsAnswered, len_call, read_call, write_call, set_len_call, sync_call};
    ghost use Rattle.bt_log_file.specs.GaplessDisk.{gapless_conduct, fault_count, PassesOn};

    ghost conduct = { gapless_conduct D.conduct };

    ghost reads_image = { λ d honest. D.reads_image d.inner honest };

    fn len(&mut self) -> Result<u64, DeviceFault>
        ensures passes { PassesOn D.conduct self.old (len_call result) self.new }

        // as every device
        ensures counted { fault_count D.conduct self.new
            ≡ count_after (fault_count D.conduct self.old) result }
        ensures as_honest { D.conduct.honest self.old.inner ↔ D.conduct.honest self.new.inner }
        ensures answered { D.conduct.honest self.old.inner
            → IsAnswered (D.conduct.history self.old.inner)
            (len_call result) (D.conduct.history self.new.inner) }
    {
        self.inner.len()
    }

    fn read_at(&mut self, at: u64, out: &mut [u8]) -> Result<usize, DeviceFault>
        ensures passes { PassesOn
            D.conduct self.old (read_call at out.new result) self.new }

        // as every device
        ensures within { IfOk result (λ count. count ≤ length out.new) }
        ensures counted { fault_count D.conduct self.new
            ≡ count_after (fault_count D.conduct self.old) result }
        ensures as_honest { D.conduct.honest self.old.inner ↔ D.conduct.honest self.new.inner }
        ensures answered { D.conduct.honest self.old.inner
            → IsAnswered (D.conduct.history self.old.inner)
            (read_call at out.new result) (D.conduct.history self.new.inner) }
    {
        self.inner.read_at(at, out)
    }

    fn write_at(&mut self, at: u64, bytes: &[u8]) -> Result<(), DeviceFault>
        // without gaps
        ensures gap { D.conduct.honest self.old.inner → self.old.is_gapless ≡ true
            → length (D.conduct.history self.old.inner).now.bytes < at
            → IsErr result × (D.conduct.history self.new.inner ≡ D.conduct.history self.old.inner) }
        ensures passes { self.old.is_gapless ≡ false
            → PassesOn D.conduct self.old (write_call at bytes.now result) self.new }

        // as every device
        ensures counted { fault_count D.conduct self.new
            ≡ count_after (fault_count D.conduct self.old) result }
        ensures as_honest { D.conduct.honest self.old.inner ↔ D.conduct.honest self.new.inner }
        ensures answered { D.conduct.honest self.old.inner
            → IsAnswered (D.conduct.history self.old.inner)
            (write_call at bytes.now result) (D.conduct.history self.new.inner) }
    {
        if self.leaves_gap(at)? {
            self.refused = self.refused.saturating_add(1);
            return Err(DeviceFault);
        }
        self.inner.write_at(at, bytes)
    }

    fn set_len(&mut self, len: u64) -> Result<(), DeviceFault>
        ensures passes { PassesOn D.conduct self.old (set_len_call len result) self.new }

        // as every device
        ensures counted { fault_count D.conduct self.new
            ≡ count_after (fault_count D.conduct self.old) result }
        ensures as_honest { D.conduct.honest self.old.inner ↔ D.conduct.honest self.new.inner }
        ensures answered { D.conduct.honest self.old.inner
            → IsAnswered (D.conduct.history self.old.inner)
            (set_len_call len result) (D.conduct.history self.new.inner) }
    {
        self.inner.set_len(len)
    }

    fn sync(&mut self) -> Result<(), DeviceFault>
        ensures passes { PassesOn D.conduct self.old (sync_call result) self.new }

        // as every device
        ensures counted { fault_count D.conduct self.new
            ≡ count_after (fault_count D.conduct self.old) result }
        ensures as_honest { D.conduct.honest self.old.inner ↔ D.conduct.honest self.new.inner }
        ensures answered { D.conduct.honest self.old.inner
            → IsAnswered (D.conduct.history self.old.inner)
            (sync_call result) (D.conduct.history self.new.inner) }
    {
        self.inner.sync()
    }
}
