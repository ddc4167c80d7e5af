//! A device that is read ahead.
ghost use Rattle.std.specs.Prelude.{◌≡◌};
ghost use Rattle.bt_disk.specs.Limits.{count_after};
ghost use Rattle.bt_devices.specs.Disk.{new_ahead, MayReadRun};

use crate::cache::{DigestCache, RUN_LEN};
use bt_disk::{DeviceFault, Disk};
use bt_tree::BLOCK_LEN;
use std::cell::RefCell;
use std::marker::Model;

/// A device whose blocks are read ahead of its reader, eight at a time, and digested there, while they are
/// read one after the other. What its reader gets is what the device inside gives it then, and no copy.
///
/// As a device it is the one inside, but for the count of failed calls, which begins at 0: a read ahead that
/// fails is none of its calls.
#[derive(Drop)]
pub struct ReadAheadDisk<'a, D> {
    inner: D,
    cache: &'a RefCell<DigestCache>,
    /// Where the next read begins, if it goes on from the last call.
    next: Option<u64>,
    /// Where the blocks end that were read ahead in this run of reads.
    until: u64,
    failed: u64,
}

impl<'a, D> Model for ReadAheadDisk<'a, D> {
    ghost use Rattle.bt_devices.specs.Disk.{AheadView};

    ghost Value = { AheadView D };

    ghost view = { λ d. record { inner = d.inner; failed = d.failed } };
}

impl<'a, D> ReadAheadDisk<'a, D> {
    /// A device whose blocks are digested ahead there. None of its calls has failed.
    pub fn new(inner: D, cache: &'a RefCell<DigestCache>) -> Self
        ensures { result ≡ new_ahead inner }
    {
        ReadAheadDisk {
            inner,
            cache,
            next: None,
            until: 0,
            failed: 0,
        }
    }

    /// Counts a call, if it failed.
    fn count<T>(&mut self, answer: &Result<T, DeviceFault>)
        ensures { self.new ≡ record self.old { failed = count_after self.old.failed answer.now } }
    {
        if answer.is_err() {
            self.failed = self.failed.saturating_add(1);
        }
    }
}

impl<'a, D: Disk> ReadAheadDisk<'a, D> {
    /// Reads eight blocks ahead, where the read of a block goes on from the last call and no blocks were read
    /// ahead from there on.
    fn read_ahead(&mut self, at: u64, len: usize)
        ensures run { MayReadRun D.conduct self.old.inner at self.new.inner }
        ensures failed { self.new.failed ≡ self.old.failed }
    {
        if self.next != Some(at) {
            // Another run of reads begins.
            self.until = 0;
            return;
        }
        if len == BLOCK_LEN && at >= self.until {
            // Where the file ends before, there is no second try at each of its last blocks.
            self.until = at.saturating_add(RUN_LEN as u64);
            take_shared(self.cache, &mut self.inner, at);
        }
    }
}

/// Has eight blocks of a device digested ahead, from a byte on, where the cache is not in use.
fn take_shared<D: Disk>(cache: &RefCell<DigestCache>, disk: &mut D, at: u64)
    ensures { MayReadRun D.conduct disk.old at disk.new }
{
    let Ok(mut guard) = cache.try_borrow_mut() else {
        return;
    };
    let cache = &mut *guard;
    if cache.is_due() {
        cache.take_run(disk, at);
    }
}

/// Where a read ended, if it succeeded.
fn end_of(at: u64, answer: &Result<usize, DeviceFault>) -> Option<u64> {
    match answer {
        Ok(count) => at.checked_add(*count as u64),
        Err(_) => None,
    }
}

impl<'a, D: Disk> Disk for ReadAheadDisk<'a, D> {
    ghost use Rattle.std.specs.Prelude.{◌≡◌, ◌↔◌, ◌≤◌, ◌∷◌, [], length, IfOk};
    ghost use Rattle.bt_disk.specs.Limits.{count_after};
    ghost use Rattle.bt_disk.specs.Calls.{IsAnswered, HasCalls, len_call, read_call, write_call, set_len_call, sync_call};
    ghost use Rattle.bt_devices.specs.Disk.{ahead_conduct, IsReadAfterRun};

    ghost conduct = { ahead_conduct D.conduct };

    ghost reads_image = { λ d honest. D.reads_image d.inner honest };

    fn len(&mut self) -> Result<u64, DeviceFault>
        ensures passed { HasCalls D.conduct
            self.old.inner (len_call result ∷ []) self.new.inner }

        // as every device
        ensures counted { self.new.failed ≡ count_after self.old.failed result }
        ensures as_honest { D.conduct.honest self.old.inner ↔ D.conduct.honest self.new.inner }
        ensures answered { D.conduct.honest self.old.inner
            → IsAnswered (D.conduct.history self.old.inner)
            (len_call result) (D.conduct.history self.new.inner) }
    {
        let answer = self.inner.len();
        self.count(&answer);
        answer
    }

    fn read_at(&mut self, at: u64, out: &mut [u8]) -> Result<usize, DeviceFault>
        ensures passed { IsReadAfterRun D.conduct
            self.old.inner at out.new result self.new.inner }

        // as every device
        ensures within { IfOk result (λ count. count ≤ length out.new) }
        ensures counted { self.new.failed ≡ count_after self.old.failed result }
        ensures as_honest { D.conduct.honest self.old.inner ↔ D.conduct.honest self.new.inner }
        ensures answered { D.conduct.honest self.old.inner
            → IsAnswered (D.conduct.history self.old.inner)
            (read_call at out.new result) (D.conduct.history self.new.inner) }
    {
        self.read_ahead(at, out.len());
        let answer = self.inner.read_at(at, out);
        self.next = end_of(at, &answer);
        self.count(&answer);
        answer
    }

    fn write_at(&mut self, at: u64, bytes: &[u8]) -> Result<(), DeviceFault>
        ensures passed { HasCalls D.conduct
            self.old.inner (write_call at bytes.now result ∷ []) self.new.inner }

        // as every device
        ensures counted { self.new.failed ≡ count_after self.old.failed result }
        ensures as_honest { D.conduct.honest self.old.inner ↔ D.conduct.honest self.new.inner }
        ensures answered { D.conduct.honest self.old.inner
            → IsAnswered (D.conduct.history self.old.inner)
            (write_call at bytes.now result) (D.conduct.history self.new.inner) }
    {
        // Nothing is read ahead after a write.
        self.next = None;
        let answer = self.inner.write_at(at, bytes);
        self.count(&answer);
        answer
    }

    fn set_len(&mut self, len: u64) -> Result<(), DeviceFault>
        ensures passed { HasCalls D.conduct
            self.old.inner (set_len_call len result ∷ []) self.new.inner }

        // as every device
        ensures counted { self.new.failed ≡ count_after self.old.failed result }
        ensures as_honest { D.conduct.honest self.old.inner ↔ D.conduct.honest self.new.inner }
        ensures answered { D.conduct.honest self.old.inner
            → IsAnswered (D.conduct.history self.old.inner)
            (set_len_call len result) (D.conduct.history self.new.inner) }
    {
        self.next = None;
        let answer = self.inner.set_len(len);
        self.count(&answer);
        answer
    }

    fn sync(&mut self) -> Result<(), DeviceFault>
        ensures passed { HasCalls D.conduct
            self.old.inner (sync_call result ∷ []) self.new.inner }

        // as every device
        ensures counted { self.new.failed ≡ count_after self.old.failed result }
        ensures as_honest { D.conduct.honest self.old.inner ↔ D.conduct.honest self.new.inner }
        ensures answered { D.conduct.honest self.old.inner
            → IsAnswered (D.conduct.history self.old.inner)
            (sync_call result) (D.conduct.history self.new.inner) }
    {
        self.next = None;
        let answer = self.inner.sync();
        self.count(&answer);
        answer
    }
}
