//! What is asked of a file system in which nothing is changed.
ghost use Rattle.std.specs.Prelude.{◌≡◌, ℕ, List, Option, Result, ⊤};
ghost use Rattle.bt_disk.specs.declared.opening.FileIdentity.{FileIdentity};
ghost use Rattle.bt_folder.specs.Lookup.{told_identity};
ghost use Rattle.bt_folder.specs.declared.folder_names.FolderNames.{FolderNames};
ghost use Rattle.bt_folder.specs.declared.folder_names.ListingError.{ListingError};

use crate::folder_names::{FolderNames, ListingError};
use bt_disk::FileIdentity;
use std::os::unix::fs::MetadataExt;
use std::rt::Files;

/// A file system that is asked for what lies in it.
pub trait Lookup {
    /// That it told of what lies at a path by this identity, or by none.
    ghost tells: { Self → List ℕ → Option FileIdentity → Type 0 };

    /// That it answered a listing of a folder so.
    ghost lists: { Self → List ℕ → Result FolderNames ListingError → Type 0 };

    /// By what it tells a file or a folder apart that lies at a path, at the end of all links, if it tells of one.
    fn identity_at(&self, path: &str) -> Option<FileIdentity>
        ensures { tells self.now path.now result };

    /// The names in a folder, which is listed once. Names that are no UTF-8 are left out.
    ///
    /// Errors: the folder can't be listed, or memory is refused.
    fn names_in(&self, folder: &str) -> Result<FolderNames, ListingError>
        ensures { lists self.now folder.now result };
}

// The kit says nothing of what lies in a file system.
impl<R: Files + AllocGlobal + Clone + Drop> Lookup for R {
    ghost tells = { λ _ _ _. ⊤ };

    ghost lists = { λ _ _ _. ⊤ };

    fn identity_at(&self, path: &str) -> Option<FileIdentity> {
        match self.metadata(path) {
            Ok(metadata) => told_identity(metadata.dev(), metadata.ino()),
            Err(_) => None,
        }
    }

    fn names_in(&self, folder: &str) -> Result<FolderNames, ListingError> {
        FolderNames::read(self, folder)
    }
}

/// By what a file is told apart of which the system tells these numbers. None where it tells the inode 0, which no file
/// has.
fn told_identity(device: u64, inode: u64) -> Option<FileIdentity>
    ensures { result ≡ told_identity device inode }
{
    if inode == 0 {
        return None;
    }
    Some(FileIdentity { device, inode })
}
