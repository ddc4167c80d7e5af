//! What every device promises.
ghost use Rattle.std.specs.Prelude.{◌≡◌, ◌↔◌, ◌≤◌, IfOk, length};
ghost use Rattle.bt_disk.specs.Limits.{count_after, one_more};
ghost use Rattle.bt_disk.specs.State.{IsImage};
ghost use Rattle.bt_disk.specs.Conduct.{Conduct};
ghost use Rattle.bt_disk.specs.Calls.{IsAnswered, len_call, read_call, write_call, set_len_call, sync_call};

use thiserror::Error;

/// A call of a device failed.
#[derive(Clone, Copy, Debug, PartialEq, Eq, Error)]
#[error("device fault")]
pub struct DeviceFault;

/// A device of bytes, each call of which may fail.
///
/// An *honest* device gives what was written to it. Of one that isn't, nothing is promised but the count of
/// its failed calls. What an honest device holds changes by its calls alone: by a write and `set_len`, whole
/// where they succeed and perhaps in part where they fail. A crash may lose or spoil what was written, and
/// any change of the length, since the last sync that succeeded; other bytes it leaves as they are.
pub trait Disk {
    /// What the device held, from its making on; whether it gives what was written, which no call changes; and
    /// how many of its calls failed, a count that stays at 2^64 - 1 once it is there.
    ghost conduct: { Conduct Self };

    /// How many bytes there are.
    fn len(&mut self) -> Result<u64, DeviceFault>
        ensures counted { conduct.faults self.new ≡ count_after (conduct.faults self.old) result }
        ensures as_honest { conduct.honest self.old ↔ conduct.honest self.new }
        ensures answered { conduct.honest self.old
            → IsAnswered (conduct.history self.old) (len_call result) (conduct.history self.new) };

    /// Reads bytes from byte `at` on into the front of `out`, as many as there are and as it holds, and says
    /// how many these are. After an error nothing is said of `out`.
    fn read_at(&mut self, at: u64, out: &mut [u8]) -> Result<usize, DeviceFault>
        ensures within { IfOk result (λ count. count ≤ length out.new) }
        ensures counted { conduct.faults self.new ≡ count_after (conduct.faults self.old) result }
        ensures as_honest { conduct.honest self.old ↔ conduct.honest self.new }
        ensures answered { conduct.honest self.old
            → IsAnswered (conduct.history self.old)
            (read_call at out.new result) (conduct.history self.new) };

    /// Writes bytes from byte `at` on, past the end too: a gap before them is filled with zeros. A write of
    /// no bytes changes nothing. After an error any part of it may have been made.
    fn write_at(&mut self, at: u64, bytes: &[u8]) -> Result<(), DeviceFault>
        ensures counted { conduct.faults self.new ≡ count_after (conduct.faults self.old) result }
        ensures as_honest { conduct.honest self.old ↔ conduct.honest self.new }
        ensures answered { conduct.honest self.old
            → IsAnswered (conduct.history self.old)
            (write_call at bytes.now result) (conduct.history self.new) };

    /// Cuts the bytes to a length, or fills them up to it with zeros. After an error any part of it may have
    /// been made.
    fn set_len(&mut self, len: u64) -> Result<(), DeviceFault>
        ensures counted { conduct.faults self.new ≡ count_after (conduct.faults self.old) result }
        ensures as_honest { conduct.honest self.old ↔ conduct.honest self.new }
        ensures answered { conduct.honest self.old
            → IsAnswered (conduct.history self.old) (set_len_call len result)
            (conduct.history self.new) };

    /// Makes sure of all that was written: from then on a crash leaves what a read gives.
    fn sync(&mut self) -> Result<(), DeviceFault>
        ensures counted { conduct.faults self.new ≡ count_after (conduct.faults self.old) result }
        ensures as_honest { conduct.honest self.old ↔ conduct.honest self.new }
        ensures answered { conduct.honest self.old
            → IsAnswered (conduct.history self.old) (sync_call result) (conduct.history self.new) };

    /// What a read gives is one of the images that a crash now may leave.
    ghost reads_image: { (disk : Self) → conduct.honest disk
        → IsImage (conduct.history disk).now (conduct.history disk).now.bytes };
}

/// Counts a call that failed, and gives its error.
pub(crate) fn counted_fault(failed: &mut u64) -> DeviceFault
    ensures { failed.new ≡ one_more failed.old }
{
    *failed = failed.saturating_add(1);
    DeviceFault
}
