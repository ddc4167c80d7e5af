//! Files that were opened already, as the system tells them apart.
ghost use Rattle.std.specs.Prelude.{◌≡◌, ◌↔◌, ◌⊎◌, IfOk, OnOk, OnErr, IsTrue};
ghost use Rattle.std.specs.Bool.{OnFalse};
ghost use Rattle.bt_disk.specs.declared.opening.FileIdentity.{FileIdentity};
ghost use Rattle.bt_folder.specs.KnownFiles.{IsKnown};

use bt_disk::FileIdentity;
use std::alloc::{AllocError, Global};
use std::collections::BTreeSet;

/// The files that were opened already. Two paths of one file have one identity, so the second of them is seen.
#[derive(Drop)]
pub struct KnownFiles {
    /// Each by the numbers of its device and of its inode.
    files: BTreeSet<(u64, u64)>,
}

impl KnownFiles {
    /// A set in which no file is known yet.
    pub fn new(alloc: Global) -> Self
        ensures { (file : FileIdentity) → ¬ IsKnown result file }
    {
        KnownFiles {
            files: BTreeSet::new(alloc),
        }
    }

    /// Adds a file, and says whether it is a further one: no, where it was there already.
    pub fn insert(&mut self, file: FileIdentity) -> Result<bool, AllocError>
        ensures is_further { IfOk result (λ is_further. IsTrue is_further
            ↔ ¬ IsKnown self.old file) }
        ensures known { IfOk result (λ is_further. OnFalse is_further (IsKnown self.old file)) }
        ensures added { OnOk result ((other : FileIdentity)
            → IsKnown self.new other ↔ (IsKnown self.old other ⊎ (other ≡ file))) }
        ensures failed { OnErr result ((other : FileIdentity)
            → IsKnown self.new other ↔ IsKnown self.old other) }
    {
        Ok(self.files.insert((file.device, file.inode))?)
    }
}
