//! A file system in which the files of devices are opened.
ghost use Rattle.std.specs.Prelude.{ℕ, List, ⊤, OnErr};

use crate::disk::DeviceFault;
use crate::handle::{Opened, open_or_make, open_present};
use std::fs::Files;
use std::rc::Rc;

/// A file system in which the files of devices are opened.
pub trait DeviceFiles: Files {
    /// That it did not open the file at a path.
    ghost refuses: { Self → List ℕ → Type 0 };

    /// That an `Rc` of what its devices share has no count left.
    ghost is_shared_out: { Self → Type 0 };

    /// Opens a file to read it: none, where there is no file.
    ///
    /// Errors: what lies there is no regular file, or it can't be opened.
    fn open_to_read(&self, path: &str) -> Result<Option<Opened<Self::File>>, DeviceFault>
        ensures { OnErr result (refuses self.now path.now) };

    /// Opens a file to read and write it, and makes one with no bytes where there is none.
    ///
    /// Errors: what lies there is no regular file, or it can't be opened or made.
    fn open_to_write(&self, path: &str) -> Result<Opened<Self::File>, DeviceFault>
        ensures { OnErr result (refuses self.now path.now) };

    /// One more owner of what its devices share.
    ///
    /// Errors: no count of the `Rc` is left.
    fn share<T: Drop>(&self, shared: &Rc<T>) -> Result<Rc<T>, DeviceFault>
        ensures { OnErr result (is_shared_out self.now) };
}

// The kit says nothing of which calls fail.
impl<R: Files> DeviceFiles for R {
    ghost refuses = { λ _ _. ⊤ };

    ghost is_shared_out = { λ _. ⊤ };

    fn open_to_read(&self, path: &str) -> Result<Option<Opened<R::File>>, DeviceFault> {
        open_present(self, path, false)
    }

    fn open_to_write(&self, path: &str) -> Result<Opened<R::File>, DeviceFault> {
        open_or_make(self, path)
    }

    fn share<T: Drop>(&self, shared: &Rc<T>) -> Result<Rc<T>, DeviceFault> {
        match shared.clone() {
            Ok(shared) => Ok(shared),
            Err(_) => Err(DeviceFault),
        }
    }
}
