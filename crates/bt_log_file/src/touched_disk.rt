//! Files that are synced only where they were read or written.
ghost use Rattle.std.specs.Prelude.{◌≡◌};
ghost use Rattle.bt_log_file.specs.TouchedDisk.{new_touched};

use crate::place::Place;
use bt_disk::{DeviceFault, Disk, PooledDisk};
use bt_folder::Lookup;
use bt_progress::Watch;
use std::marker::Model;
use std::rt::Files;

/// A file of a pool of which nothing is to be kept until it is touched: that is, read, written or given a new length. A
/// sync before that makes no call. From then on all calls go to the file, and the first sync does too.
///
/// So, where a log tells which blocks of a file are there, and each of these is read as the engine starts, a file is
/// synced of which blocks count, and no other is opened.
///
/// Where a place is given, it is looked at with each sync, whether its name leads to the file still: what is told of the
/// file is told of the one that was opened.
#[derive(Drop)]
pub struct TouchedDisk<'a, R: Files + Drop, P> {
    file: PooledDisk<R>,
    /// All that was found in the file is to be kept, or something that was written.
    is_touched: bool,
    /// None, where nothing is told of it, or it was told already.
    place: Option<Place<'a, R, P>>,
}

impl<'a, R: Files + Drop, P> Model for TouchedDisk<'a, R, P> {
    ghost use Rattle.bt_log_file.specs.TouchedDisk.{TouchedView};

    ghost Value = { TouchedView };

    ghost view = { λ d. record { file = d.file; is_touched = d.is_touched } };
}

impl<'a, R: Files + Drop, P> TouchedDisk<'a, R, P> {
    /// A file that is touched already, or is not yet, and the place where it lies, if that is to be looked at.
    pub fn new(file: PooledDisk<R>, is_touched: bool, place: Option<Place<'a, R, P>>) -> Self
        ensures { result ≡ new_touched file is_touched }
    {
        TouchedDisk {
            file,
            is_touched,
            place,
        }
    }
}

impl<'a, R: Files + AllocGlobal + Clone + Drop + Lookup, P: Watch> TouchedDisk<'a, R, P> {
    /// Looks whether the file's name leads to it still.
    fn look_at_place(&mut self)
        ensures { self.new ≡ self.old }
    {
        if let Some(identity) = self.file.opening().identity
            && let Some(place) = self.place.take()
        {
            self.place = place.looked_at(identity);
        }
    }
}

impl<'a, R: Files + AllocGlobal + Clone + Drop + Lookup, P: Watch> Disk for TouchedDisk<'a, R, P> {
    ghost use Rattle.std.specs.Prelude.{[], ◌≡◌, ◌↔◌, ◌≤◌, Ok, OnOk, IfOk, true, false, length};
    ghost use Rattle.bt_disk.specs.Limits.{count_after};
    ghost use Rattle.bt_disk.specs.History.{new_history};
    ghost use Rattle.bt_disk.specs.Calls.{IsAnswered, len_call, read_call, write_call, set_len_call, sync_call};
    ghost use Rattle.bt_log_file.specs.TouchedDisk.{touched_conduct};

    ghost conduct = { touched_conduct };

    ghost reads_image = { λ _ honest. absurd honest };

    fn len(&mut self) -> Result<u64, DeviceFault>
        ensures is_touched { self.new.is_touched ≡ self.old.is_touched }
        ensures counted { self.new.file.failed ≡ count_after self.old.file.failed result }
        ensures as_honest { ⊥ ↔ ⊥ }
        ensures answered { ⊥ → IsAnswered (new_history []) (len_call result) (new_history []) }
    {
        self.file.len()
    }

    fn read_at(&mut self, at: u64, out: &mut [u8]) -> Result<usize, DeviceFault>
        ensures is_touched { self.new.is_touched ≡ true }
        ensures is_synced { self.new.file.is_synced ≡ self.old.file.is_synced }
        ensures within { IfOk result (λ count. count ≤ length out.new) }
        ensures counted { self.new.file.failed ≡ count_after self.old.file.failed result }
        ensures as_honest { ⊥ ↔ ⊥ }
        ensures answered { ⊥ → IsAnswered (new_history []) (read_call at out.new result)
            (new_history []) }
    {
        self.is_touched = true;
        self.file.read_at(at, out)
    }

    fn write_at(&mut self, at: u64, bytes: &[u8]) -> Result<(), DeviceFault>
        ensures is_touched { self.new.is_touched ≡ true }
        ensures is_synced { self.new.file.is_synced ≡ false }
        ensures counted { self.new.file.failed ≡ count_after self.old.file.failed result }
        ensures as_honest { ⊥ ↔ ⊥ }
        ensures answered { ⊥ → IsAnswered (new_history []) (write_call at bytes.now result)
            (new_history []) }
    {
        self.is_touched = true;
        self.file.write_at(at, bytes)
    }

    fn set_len(&mut self, len: u64) -> Result<(), DeviceFault>
        ensures is_touched { self.new.is_touched ≡ true }
        ensures is_synced { self.new.file.is_synced ≡ false }
        ensures counted { self.new.file.failed ≡ count_after self.old.file.failed result }
        ensures as_honest { ⊥ ↔ ⊥ }
        ensures answered { ⊥ → IsAnswered (new_history []) (set_len_call len result)
            (new_history []) }
    {
        self.is_touched = true;
        self.file.set_len(len)
    }

    fn sync(&mut self) -> Result<(), DeviceFault>
        ensures is_touched { self.new.is_touched ≡ self.old.is_touched }
        ensures untouched { self.old.is_touched ≡ false → (result ≡ Ok tt) × (self.new ≡ self.old) }
        ensures is_synced { self.old.is_touched ≡ true → OnOk result
            (self.new.file.is_synced ≡ true) }
        ensures counted { self.new.file.failed ≡ count_after self.old.file.failed result }
        ensures as_honest { ⊥ ↔ ⊥ }
        ensures answered { ⊥ → IsAnswered (new_history []) (sync_call result) (new_history []) }
    {
        self.look_at_place();
        if !self.is_touched {
            return Ok(());
        }
        self.file.sync()
    }
}
