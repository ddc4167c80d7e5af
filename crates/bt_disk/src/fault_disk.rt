//! A device that fails where it is told to.
ghost use Rattle.std.specs.Prelude.{◌≡◌, ◌-◌, ◌^◌, ◌<◌};
ghost use Rattle.std.specs.Bool.{OnTrue, OnFalse};
ghost use Rattle.bt_disk.specs.FaultDisk.{new_fault_disk, next_call, fails_next, after_failure, flipped};

use crate::disk::{DeviceFault, Disk};
use std::marker::Model;

/// A device that fails calls, or alters a byte that it reads, where it is told to; all other calls go to the
/// device inside, which a call that fails here does not reach.
///
/// Calls are counted from 1, from its making, in a count that stays at 2^64 - 1. The three settings stand
/// side by side, and each may be made between calls. A second one of a kind replaces the first, also where its
/// call was made before: no call fails by such a `failing_once` then, and each further one by such a
/// `failing_from`. A device that has a flip is not honest.
#[derive(Drop)]
pub struct FaultDisk<D: Disk + Drop> {
    inner: D,
    calls: u64,
    once: Option<u64>,
    from: Option<u64>,
    /// The call from which on it alters a byte, and which one.
    flip: Option<(u64, u64)>,
    failed: u64,
}

impl<D: Disk + Drop> Model for FaultDisk<D> {
    ghost use Rattle.bt_disk.specs.FaultDisk.{FaultView};

    ghost Value = { FaultView D };

    ghost view = { λ d. record {
      inner = d.inner;
      calls = d.calls;
      failing_once = d.once;
      failing_from = d.from;
      flipping = d.flip;
      failed = d.failed;
    } };
}

impl<D: Disk + Drop> FaultDisk<D> {
    /// A device with no setting.
    pub fn new(inner: D) -> Self
        ensures { result ≡ new_fault_disk inner }
    {
        FaultDisk {
            inner,
            calls: 0,
            once: None,
            from: None,
            flip: None,
            failed: 0,
        }
    }

    /// Lets the k-th call fail, and no other by this setting, k from 1 to 2^64 - 2.
    pub fn failing_once(mut self, k: u64) -> Self
        requires some { 0 < k }
        requires within { k < 2 ^ 64 - 1 }
        ensures { result ≡ record self { failing_once = Some k } }
    {
        self.once = Some(k);
        self
    }

    /// Lets every call from the k-th on fail, k from 1 to 2^64 - 2: each further one, where the k-th was made
    /// before.
    pub fn failing_from(mut self, k: u64) -> Self
        requires some { 0 < k }
        requires within { k < 2 ^ 64 - 1 }
        ensures { result ≡ record self { failing_from = Some k } }
    {
        self.from = Some(k);
        self
    }

    /// From the k-th call on, k from 1 to 2^64 - 2, lets the byte at `at` be read with its low bit changed.
    pub fn flipping(mut self, k: u64, at: u64) -> Self
        requires some { 0 < k }
        requires within { k < 2 ^ 64 - 1 }
        ensures { result ≡ record self { flipping = Some (k, at) } }
    {
        self.flip = Some((k, at));
        self
    }

    /// The device inside.
    pub fn inner(&self) -> &D
        ensures { result.now ≡ self.now.inner }
    {
        &self.inner
    }

    /// Counts a call, and a failure where it is to fail, and says whether it is.
    fn fails(&mut self) -> bool
        ensures next { result ≡ fails_next self.old }
        ensures fails { OnTrue result (self.new ≡ after_failure self.old) }
        ensures passes { OnFalse result
            (self.new ≡ record self.old { calls = next_call self.old }) }
    {
        self.calls = self.calls.saturating_add(1);
        let number = self.calls;
        let fails = self.once.is_some_and(|k| k == number)
            || self.from.is_some_and(|k| k <= number);
        if fails {
            self.failed = self.failed.saturating_add(1);
        }
        fails
    }
}

impl<D: Disk + Drop> Disk for FaultDisk<D> {
    ghost use Rattle.std.specs.Prelude.{◌≡◌, ◌↔◌, ◌≤◌, length, IsErr, IfOk};
    ghost use Rattle.std.specs.Bool.{OnTrue, OnFalse};
    ghost use Rattle.bt_disk.specs.Limits.{count_after};
    ghost use Rattle.bt_disk.specs.Calls.{IsAnswered, len_call, read_call, write_call, set_len_call, sync_call};
    ghost use Rattle.bt_disk.specs.FaultDisk.{fault_conduct, fault_count, IsHonest, fails_next, after_failure, PassesOn, PassesRead};

    ghost conduct = { fault_conduct D.conduct };

    ghost reads_image = { λ d honest. D.reads_image d.inner honest.0 };

    fn len(&mut self) -> Result<u64, DeviceFault>
        // by its settings
        ensures fails { OnTrue (fails_next self.old)
            (IsErr result × (self.new ≡ after_failure self.old)) }
        ensures passes { OnFalse (fails_next self.old)
            (PassesOn D.conduct self.old (len_call result) self.new) }

        // as every device
        ensures counted { fault_count D.conduct self.new
            ≡ count_after (fault_count D.conduct self.old) result }
        ensures as_honest { IsHonest D.conduct self.old ↔ IsHonest D.conduct self.new }
        ensures answered { IsHonest D.conduct self.old
            → IsAnswered (D.conduct.history self.old.inner)
            (len_call result) (D.conduct.history self.new.inner) }
    {
        if self.fails() {
            return Err(DeviceFault);
        }
        self.inner.len()
    }

    fn read_at(&mut self, at: u64, out: &mut [u8]) -> Result<usize, DeviceFault>
        // by its settings
        ensures fails { OnTrue (fails_next self.old)
            (IsErr result × (self.new ≡ after_failure self.old)) }
        ensures passes { OnFalse (fails_next self.old)
            (PassesRead D.conduct self.old at out.new result self.new) }

        // as every device
        ensures within { IfOk result (λ count. count ≤ length out.new) }
        ensures counted { fault_count D.conduct self.new
            ≡ count_after (fault_count D.conduct self.old) result }
        ensures as_honest { IsHonest D.conduct self.old ↔ IsHonest D.conduct self.new }
        ensures answered { IsHonest D.conduct self.old
            → IsAnswered (D.conduct.history self.old.inner)
            (read_call at out.new result) (D.conduct.history self.new.inner) }
    {
        if self.fails() {
            return Err(DeviceFault);
        }
        let number = self.calls;
        let count = self.inner.read_at(at, out)?;
        flip_bit(self.flip, number, at, &mut out[..count]);
        Ok(count)
    }

    fn write_at(&mut self, at: u64, bytes: &[u8]) -> Result<(), DeviceFault>
        // by its settings
        ensures fails { OnTrue (fails_next self.old)
            (IsErr result × (self.new ≡ after_failure self.old)) }
        ensures passes { OnFalse (fails_next self.old)
            (PassesOn D.conduct self.old (write_call at bytes.now result) self.new) }

        // as every device
        ensures counted { fault_count D.conduct self.new
            ≡ count_after (fault_count D.conduct self.old) result }
        ensures as_honest { IsHonest D.conduct self.old ↔ IsHonest D.conduct self.new }
        ensures answered { IsHonest D.conduct self.old
            → IsAnswered (D.conduct.history self.old.inner)
            (write_call at bytes.now result) (D.conduct.history self.new.inner) }
    {
        if self.fails() {
            // The device inside is not reached.
            return Err(DeviceFault);
        }
        self.inner.write_at(at, bytes)
    }

    fn set_len(&mut self, len: u64) -> Result<(), DeviceFault>
        // by its settings
        ensures fails { OnTrue (fails_next self.old)
            (IsErr result × (self.new ≡ after_failure self.old)) }
        ensures passes { OnFalse (fails_next self.old)
            (PassesOn D.conduct self.old (set_len_call len result) self.new) }

        // as every device
        ensures counted { fault_count D.conduct self.new
            ≡ count_after (fault_count D.conduct self.old) result }
        ensures as_honest { IsHonest D.conduct self.old ↔ IsHonest D.conduct self.new }
        ensures answered { IsHonest D.conduct self.old
            → IsAnswered (D.conduct.history self.old.inner)
            (set_len_call len result) (D.conduct.history self.new.inner) }
    {
        if self.fails() {
            return Err(DeviceFault);
        }
        self.inner.set_len(len)
    }

    fn sync(&mut self) -> Result<(), DeviceFault>
        // by its settings
        ensures fails { OnTrue (fails_next self.old)
            (IsErr result × (self.new ≡ after_failure self.old)) }
        ensures passes { OnFalse (fails_next self.old)
            (PassesOn D.conduct self.old (sync_call result) self.new) }

        // as every device
        ensures counted { fault_count D.conduct self.new
            ≡ count_after (fault_count D.conduct self.old) result }
        ensures as_honest { IsHonest D.conduct self.old ↔ IsHonest D.conduct self.new }
        ensures answered { IsHonest D.conduct self.old
            → IsAnswered (D.conduct.history self.old.inner)
            (sync_call result) (D.conduct.history self.new.inner) }
    {
        if self.fails() {
            return Err(DeviceFault);
        }
        self.inner.sync()
    }
}

/// Changes the low bit of a byte, from a call on, where it is one of these bytes, which lie at a place.
fn flip_bit(flip: Option<(u64, u64)>, number: u64, at: u64, bytes: &mut [u8])
    ensures { bytes.new ≡ flipped flip number at bytes.old }
{
    if let Some((first, place)) = flip {
        if first <= number && at <= place && place - at < bytes.len() as u64 {
            bytes[(place - at) as usize] ^= 1;
        }
    }
}
