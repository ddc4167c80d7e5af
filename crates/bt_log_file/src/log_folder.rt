//! A file system in which the file of a log is opened and kept.
ghost use Rattle.std.specs.Prelude.{◌≡◌, ℕ, List, Result, ⊤, IfErr, IfOk, OnErr, OnOk};
ghost use Rattle.std.specs.declared.alloc.Global.{Global};
ghost use Rattle.std.specs.declared.io.Error.{Error};
ghost use Rattle.std.specs.declared.path.buf.PathBuf.{PathBuf};
ghost use Rattle.bt_disk.specs.declared.opening.Opening.{Opening};
ghost use Rattle.bt_log_file.specs.Device.{new_log_file};
ghost use Rattle.bt_log_file.specs.Opening.{IsCallFaultBy};

use bt_check::Fault;
use bt_disk::{DeviceFault, HandlePool, Opening, PooledDisk};
use bt_folder::sync_folder;
use std::io;
use std::path::PathBuf;
use std::rt::Files;

/// The file of a log that was opened: the path that was given, its device, and what the system told of it.
#[derive(Drop)]
pub struct OpenedLog<'p, D> {
    pub path: &'p str,
    pub disk: D,
    pub opening: Opening,
}

/// A file system in which the file of a log is opened, and its name kept.
pub trait LogFolder: Files + AllocGlobal + Clone + Drop {
    /// That it opened the file at a path, and told this of it.
    ghost opens: { Self → List ℕ → Opening → Type 0 };

    /// That it did not open the file at a path.
    ghost refuses: { Self → List ℕ → Type 0 };

    /// That it answered so where a path leads once all links are followed.
    ghost leads: { Self → List ℕ → Result (PathBuf Global) Error → Type 0 };

    /// That what was made in a folder before stays after a crash, as far as that can be had.
    ghost keeps: { Self → List ℕ → Type 0 };

    /// That it did not sync a folder.
    ghost loses: { Self → List ℕ → Type 0 };

    /// Opens a file to be read and written, in a pool of its own: so its handle stays open, and what takes the file's
    /// place later is never written. Errors: it can't be opened or made, or is no regular one; memory is refused.
    fn open_log_file<'p>(&self, path: &'p str) -> Result<OpenedLog<'p, PooledDisk<Self>>, Fault>
        ensures path { IfOk result (λ opened. opened.path.now ≡ path.now) }
        ensures file { IfOk result (λ opened. opened.disk
            ≡ new_log_file path.now opened.opening.identity) }
        ensures opening { IfOk result (λ opened. opens self.now path.now opened.opening) }
        ensures fault { IfErr result (IsCallFaultBy (refuses self.now path.now)) };

    /// Where a path leads once all links are followed.
    ///
    /// Errors: the system tells none, or one that is no text; memory is refused.
    fn end_of_links(&self, path: &str) -> io::Result<PathBuf>
        ensures { leads self.now path.now result };

    /// Has what was made in a folder kept, where that can be synced. Errors: a call fails.
    fn keep_folder(&self, folder: &str) -> Result<(), DeviceFault>
        ensures kept { OnOk result (keeps self.now folder.now) }
        ensures lost { OnErr result (loses self.now folder.now) };
}

// The kit says nothing of which calls fail, and of what stays after a crash.
impl<R: Files + AllocGlobal + Clone + Drop> LogFolder for R {
    ghost opens = { λ _ _ _. ⊤ };

    ghost refuses = { λ _ _. ⊤ };

    ghost leads = { λ _ _ _. ⊤ };

    ghost keeps = { λ _ _. ⊤ };

    ghost loses = { λ _ _. ⊤ };

    fn open_log_file<'p>(&self, path: &'p str) -> Result<OpenedLog<'p, PooledDisk<R>>, Fault> {
        let name = String::from_str(self.alloc(), path)?;
        let mut pool = HandlePool::new(self.alloc(), self.clone()?, 1)?;
        match pool.writing(name) {
            Ok(disk) => {
                let opening = disk.opening();
                Ok(OpenedLog {
                    path,
                    disk,
                    opening,
                })
            }
            Err(_) => Err(Fault::Device),
        }
    }

    fn end_of_links(&self, path: &str) -> io::Result<PathBuf> {
        self.canonicalize(self.alloc(), path)
    }

    fn keep_folder(&self, folder: &str) -> Result<(), DeviceFault> {
        sync_folder(self, folder)
    }
}
