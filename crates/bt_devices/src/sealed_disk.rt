//! Devices that are closed to writes.
ghost use Rattle.std.specs.Prelude.{◌≡◌, true};
ghost use Rattle.std.specs.Bool.{OnTrue, OnFalse};
ghost use Rattle.bt_devices.specs.SealedDisk.{new_sealed, after_refusal};

use bt_disk::{DeviceFault, Disk};
use std::cell::Cell;
use std::marker::Model;

/// Whether devices are closed to writes. All those of a folder share one. What lies in a cell no clause knows.
#[derive(Drop)]
pub struct Seal {
    is_closed: Cell<bool>,
}

impl Seal {
    /// A seal that is open: its devices may be written.
    pub fn new() -> Self {
        Seal {
            is_closed: Cell::new(false),
        }
    }

    /// Closes it: from here on no device of this seal is written. It is never opened again.
    pub fn close(&self) {
        self.is_closed.set(true);
    }

    /// Whether it was closed.
    pub fn is_closed(&self) -> bool {
        self.is_closed.get()
    }
}

/// A device that is closed to writes with its seal: from the first write or new length on that finds the seal
/// closed, or from its making on, each of these fails, and makes no call of the device inside. All other calls go
/// to that one. A sync does too: it changes no byte, and what was written before is still to be kept.
#[derive(Drop)]
pub struct SealedDisk<'a, D> {
    inner: D,
    seal: &'a Seal,
    /// It found the seal closed, and does not look again.
    is_sealed: bool,
    /// How many calls it refused: a count that stays at 2^64 - 1.
    refused: u64,
}

impl<'a, D> Model for SealedDisk<'a, D> {
    ghost use Rattle.bt_devices.specs.SealedDisk.{SealedView};

    ghost Value = { SealedView D };

    ghost view = { λ d. record { inner = d.inner; is_sealed = d.is_sealed; refused = d.refused } };
}

impl<'a, D> SealedDisk<'a, D> {
    /// A device that is written until its seal is closed.
    pub fn new(inner: D, seal: &'a Seal) -> Self
        ensures { result ≡ new_sealed inner }
    {
        SealedDisk {
            inner,
            seal,
            is_sealed: false,
            refused: 0,
        }
    }

    /// A device that is never written, whether its seal is closed or not.
    pub fn closed(inner: D, seal: &'a Seal) -> Self
        ensures { result ≡ record (new_sealed inner) { is_sealed = true } }
    {
        SealedDisk {
            inner,
            seal,
            is_sealed: true,
            refused: 0,
        }
    }

    /// Whether a write or a new length is refused, which is counted then.
    fn refuses(&mut self) -> bool
        ensures closed { self.old.is_sealed ≡ true → result ≡ true }
        ensures refused { OnTrue result (self.new ≡ after_refusal self.old) }
        ensures open { OnFalse result (self.new ≡ self.old) }
    {
        if !self.is_sealed && !self.seal.is_closed() {
            return false;
        }
        self.is_sealed = true;
        self.refused = self.refused.saturating_add(1);
        true
    }
}

impl<'a, D: Disk> Disk for SealedDisk<'a, D> {
    ghost use Rattle.std.specs.Prelude.{◌≡◌, ◌↔◌, ◌≤◌, true, false, length, IsErr, IfOk};
    ghost use Rattle.bt_disk.specs.Limits.{count_after};
    ghost use Rattle.bt_disk.specs.Calls.{IsAnswered, len_call, read_call, write_call, set_len_call, sync_call};
    ghost use Rattle.bt_devices.specs.SealedDisk.{sealed_conduct, fault_count, after_refusal, PassesOn};

    ghost conduct = { sealed_conduct D.conduct };

    ghost reads_image = { λ d honest. D.reads_image d.inner honest };

    fn len(&mut self) -> Result<u64, DeviceFault>
        ensures passes { PassesOn D.conduct self.old (len_call result) self.new }

        // as every device
        ensures counted { fault_count D.conduct self.new
            ≡ count_after (fault_count D.conduct self.old) result }
        ensures as_honest { D.conduct.honest self.old.inner ↔ D.conduct.honest self.new.inner }
        ensures answered { D.conduct.honest self.old.inner
            → IsAnswered (D.conduct.history self.old.inner)
            (len_call result) (D.conduct.history self.new.inner) }
    {
        self.inner.len()
    }

    fn read_at(&mut self, at: u64, out: &mut [u8]) -> Result<usize, DeviceFault>
        ensures passes { PassesOn
            D.conduct self.old (read_call at out.new result) self.new }

        // as every device
        ensures within { IfOk result (λ count. count ≤ length out.new) }
        ensures counted { fault_count D.conduct self.new
            ≡ count_after (fault_count D.conduct self.old) result }
        ensures as_honest { D.conduct.honest self.old.inner ↔ D.conduct.honest self.new.inner }
        ensures answered { D.conduct.honest self.old.inner
            → IsAnswered (D.conduct.history self.old.inner)
            (read_call at out.new result) (D.conduct.history self.new.inner) }
    {
        self.inner.read_at(at, out)
    }

    fn write_at(&mut self, at: u64, bytes: &[u8]) -> Result<(), DeviceFault>
        // by its seal
        ensures closed { self.old.is_sealed ≡ true → self.new.is_sealed ≡ true }
        ensures refused { self.new.is_sealed ≡ true → IsErr result
            × (self.new ≡ after_refusal self.old) }
        ensures passes { self.new.is_sealed ≡ false
            → PassesOn D.conduct self.old (write_call at bytes.now result) self.new }

        // as every device
        ensures counted { fault_count D.conduct self.new
            ≡ count_after (fault_count D.conduct self.old) result }
        ensures as_honest { D.conduct.honest self.old.inner ↔ D.conduct.honest self.new.inner }
        ensures answered { D.conduct.honest self.old.inner
            → IsAnswered (D.conduct.history self.old.inner)
            (write_call at bytes.now result) (D.conduct.history self.new.inner) }
    {
        if self.refuses() {
            // The device inside is not reached.
            return Err(DeviceFault);
        }
        self.inner.write_at(at, bytes)
    }

    fn set_len(&mut self, len: u64) -> Result<(), DeviceFault>
        // by its seal
        ensures closed { self.old.is_sealed ≡ true → self.new.is_sealed ≡ true }
        ensures refused { self.new.is_sealed ≡ true → IsErr result
            × (self.new ≡ after_refusal self.old) }
        ensures passes { self.new.is_sealed ≡ false
            → PassesOn D.conduct self.old (set_len_call len result) self.new }

        // as every device
        ensures counted { fault_count D.conduct self.new
            ≡ count_after (fault_count D.conduct self.old) result }
        ensures as_honest { D.conduct.honest self.old.inner ↔ D.conduct.honest self.new.inner }
        ensures answered { D.conduct.honest self.old.inner
            → IsAnswered (D.conduct.history self.old.inner)
            (set_len_call len result) (D.conduct.history self.new.inner) }
    {
        if self.refuses() {
            return Err(DeviceFault);
        }
        self.inner.set_len(len)
    }

    fn sync(&mut self) -> Result<(), DeviceFault>
        ensures passes { PassesOn D.conduct self.old (sync_call result) self.new }

        // as every device
        ensures counted { fault_count D.conduct self.new
            ≡ count_after (fault_count D.conduct self.old) result }
        ensures as_honest { D.conduct.honest self.old.inner ↔ D.conduct.honest self.new.inner }
        ensures answered { D.conduct.honest self.old.inner
            → IsAnswered (D.conduct.history self.old.inner)
            (sync_call result) (D.conduct.history self.new.inner) }
    {
        self.inner.sync()
    }
}
