//! The names in a folder, as its listing has them.
ghost use Rattle.std.specs.Prelude.{◌≡◌, ◌≢◌, ◌↔◌, ◌||◌, ℕ, List, false, OnOk, OnErr, bytes_eq};
ghost use Rattle.bt_folder.specs.FolderNames.{has_name};
ghost use Rattle.bt_folder.specs.declared.folder_names.ListingError.TheVariants.{Device, OutOfMemory};

use crate::folder_sync::or_dot;
use std::alloc::{AllocError, Global};
use std::collections::BTreeSet;
use std::fs::{self, DirEntry, ReadDir};
use std::io::{self, ErrorKind};
use std::rt::Files;
use thiserror::Error;

/// Why a folder is not listed.
#[derive(Clone, Copy, Debug, PartialEq, Eq, Error)]
pub enum ListingError {
    #[error("device fault")]
    Device,
    #[error("out of memory")]
    OutOfMemory,
}

impl From<AllocError> for ListingError {
    ghost from_gives = { λ _ error. error ≡ OutOfMemory };

    fn from(_error: AllocError) -> Self {
        ListingError::OutOfMemory
    }
}

/// The names in a folder, byte for byte as its listing has them. Where a file system takes several names for one
/// file, only that of the file itself is among them.
#[derive(Drop)]
pub struct FolderNames {
    names: BTreeSet<String>,
}

impl FolderNames {
    /// The names in a folder, which is listed once. The empty path is the folder that the program runs in. Names that
    /// are no UTF-8 are left out.
    ///
    /// Errors: the folder can't be listed, or memory is refused.
    pub fn read<R: Files + AllocGlobal + Clone + Drop>(
        rt: &R,
        folder: &str,
    ) -> Result<Self, ListingError> {
        match fs::read_dir(rt, or_dot(folder)) {
            Ok(entries) => names_among(rt.alloc(), entries),
            Err(error) => Err(listing_error(error.kind())),
        }
    }

    /// Whether a name is among them, byte for byte.
    pub fn has(&self, name: &str) -> bool
        ensures { result ≡ has_name self.now name.now }
    {
        self.names.contains(name)
    }

    /// A list with no name.
    fn new(alloc: Global) -> Self
        ensures { (name : List ℕ) → has_name result name ≡ false }
    {
        FolderNames {
            names: BTreeSet::new(alloc),
        }
    }

    /// Adds the name of an entry that was read; one that is no UTF-8 is left out.
    fn add<R: Files + AllocGlobal + Clone + Drop>(
        &mut self,
        alloc: Global,
        entry: io::Result<DirEntry<R>>,
    ) -> Result<(), ListingError> {
        match entry {
            Ok(entry) => Ok(self.add_name(alloc, entry.file_name())?),
            Err(error) if error.kind() == ErrorKind::InvalidFilename => Ok(()),
            Err(error) => Err(listing_error(error.kind())),
        }
    }

    fn add_name(&mut self, alloc: Global, name: &str) -> Result<(), AllocError>
        ensures added { OnOk result ((other : List ℕ)
            → has_name self.new other ≡ (bytes_eq name.now other || has_name self.old other)) }
        ensures failed { OnErr result ((other : List ℕ)
            → has_name self.new other ≡ has_name self.old other) }
    {
        self.names.insert(String::from_str(alloc, name)?)?;
        Ok(())
    }
}

/// The names of the entries of a folder.
fn names_among<R: Files + AllocGlobal + Clone + Drop>(
    alloc: Global,
    entries: ReadDir<R>,
) -> Result<FolderNames, ListingError> {
    let mut names = FolderNames::new(alloc);
    for entry in entries {
        names.add(alloc, entry)?;
    }
    Ok(names)
}

/// Why a listing ended, by the kind of the system's error.
fn listing_error(kind: ErrorKind) -> ListingError
    ensures out_of_memory { result ≡ OutOfMemory ↔ kind ≡ ErrorKind.OutOfMemory }
    ensures device { result ≡ Device ↔ kind ≢ ErrorKind.OutOfMemory }
{
    match kind {
        ErrorKind::OutOfMemory => ListingError::OutOfMemory,
        _ => ListingError::Device,
    }
}
