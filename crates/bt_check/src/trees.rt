//! Hash trees that files of one root and length share.
ghost use Rattle.std.specs.Prelude.{◌≡◌, ◌<◌, ◌↔◌, [], ◌∷◌, ℕ, List, Option, None, Some, map, length, IfOk, IsTrue};
ghost use Rattle.bt_tree.specs.Blocks.{IsFileLength};
ghost use Rattle.bt_meta.specs.Files.{File, file_of};
ghost use Rattle.bt_check.specs.Check.{CheckedFile};
ghost use Rattle.bt_check.specs.EntryCheck.{IsCheckable};
ghost use Rattle.bt_check.specs.TreeSteps.{tree_in, tree_key, HasTree, TakesTree, ChecksFile, ChecksNext, KeepsTrees, LeavesKept, LetsGo, IsLast, one_less};

use crate::data_file::Finding;
use crate::entry_check::{absent_finding, check_empty, check_tree, known_tree};
use crate::file_hash::FileHash;
use crate::pieces::PieceSize;
use bt_disk::Disk;
use bt_meta::FileEntry;
use bt_sparse::SparseTree;
use bt_tree::{Geometry, Hash32};
use std::alloc::{AllocError, Global};
use std::collections::BTreeMap;

/// The trees of files that were checked, each as long as a later file has its root and length.
#[derive(Drop)]
pub struct SharedTrees {
    /// The trees, by the root and the length of their files.
    pub kept: BTreeMap<(Hash32, u64), SparseTree<FileHash>>,
    /// Of each root and length how many files come after the last file that has it.
    last: BTreeMap<(Hash32, u64), usize>,
    /// How many files are not checked yet.
    left: usize,
}

impl SharedTrees {
    /// The trees for a check of these files, of which none is checked yet. Errors: out of memory.
    pub fn new(alloc: Global, files: &[FileEntry]) -> Result<SharedTrees, AllocError>
        ensures { IfOk result (λ trees. (layer : ℕ) → KeepsTrees layer []
            (map file_of files.now) trees) }
    {
        let mut last = BTreeMap::new(alloc);
        let mut left = files.len();
        for file in files {
            left -= 1;
            last.insert(key_of(file), left)?;
        }
        Ok(SharedTrees {
            kept: BTreeMap::new(alloc),
            last,
            left: files.len(),
        })
    }

    /// Checks the next file on its device; with none, all of it is missing. A call that failed is in the finding.
    /// Errors: out of memory.
    pub fn check<D: Disk + Drop>(
        &mut self,
        alloc: Global,
        disk: Option<D>,
        entry: &FileEntry,
        size: PieceSize,
    ) -> Result<Finding, AllocError>
        requires checkable { IsCheckable size.layer (file_of entry.now) }
        requires trees { (before : List CheckedFile) × (rest : List File)
            × KeepsTrees size.layer before (file_of entry.now ∷ rest) self.old }
        ensures { IfOk result (λ finding.
            ChecksNext D.conduct size.layer (file_of entry.now) disk self.old finding self.new) }
    {
        let finding = check_file(alloc, disk, entry, size, &mut self.kept)?;
        self.finish(entry);
        Ok(finding)
    }

    /// Counts a file as checked, and lets go of its tree where no file after it has its root and length.
    pub fn finish(&mut self, entry: &FileEntry)
        requires { 0 < self.old.left }
        ensures goes { LetsGo (file_of entry.now) (one_less self.old) self.new }
        ensures gone { IsLast (one_less self.old) (file_of entry.now)
            → tree_in self.new.kept (file_of entry.now) ≡ None }
    {
        self.left -= 1;
        self.let_go(entry);
    }

    /// Lets go of the tree of a file where no file after it has its root and length.
    fn let_go(&mut self, entry: &FileEntry)
        ensures goes { LetsGo (file_of entry.now) self.old self.new }
        ensures gone { IsLast self.old (file_of entry.now)
            → tree_in self.new.kept (file_of entry.now) ≡ None }
    {
        if !self.is_last(entry) {
            return;
        }
        self.kept.remove(&key_of(entry));
    }

    /// Whether no file after this one has its root and length.
    fn is_last(&self, entry: &FileEntry) -> bool
        ensures { IsTrue result ↔ IsLast self.now (file_of entry.now) }
    {
        match self.last.get(&key_of(entry)) {
            Some(behind) => *behind >= self.left,
            None => true,
        }
    }
}

/// The root and the length of a file, by which its tree is kept.
pub fn key_of(entry: &FileEntry) -> (Hash32, u64)
    ensures { result ≡ tree_key (file_of entry.now) }
{
    (entry.root, entry.length)
}

/// Checks the data file of an entry, where there is one.
fn check_file<D: Disk + Drop>(
    alloc: Global,
    disk: Option<D>,
    entry: &FileEntry,
    size: PieceSize,
    kept: &mut BTreeMap<(Hash32, u64), SparseTree<FileHash>>,
) -> Result<Finding, AllocError>
    requires checkable { IsCheckable size.layer (file_of entry.now) }
    requires tree { (before : List CheckedFile) × HasTree size.layer before
        (file_of entry.now) kept.old }
    ensures { IfOk result (λ finding.
        ChecksFile D.conduct size.layer (file_of entry.now) disk kept.old finding kept.new) }
{
    match disk {
        Some(disk) => check_present(alloc, disk, entry, size, kept),
        None => Ok(absent_finding(entry.length)),
    }
}

/// Checks a data file by what is known of its tree, which is kept then.
fn check_present<D: Disk + Drop>(
    alloc: Global,
    disk: D,
    entry: &FileEntry,
    size: PieceSize,
    kept: &mut BTreeMap<(Hash32, u64), SparseTree<FileHash>>,
) -> Result<Finding, AllocError>
    requires checkable { IsCheckable size.layer (file_of entry.now) }
    requires tree { (before : List CheckedFile) × HasTree size.layer before
        (file_of entry.now) kept.old }
    ensures { IfOk result (λ finding.
        ChecksFile D.conduct size.layer (file_of entry.now) (Some disk) kept.old finding kept.new) }
{
    let Some(geometry) = Geometry::new(entry.length) else {
        return Ok(check_empty(disk).finding);
    };
    let mut tree = take_tree(alloc, geometry, entry, size, kept)?;
    let check = check_tree(alloc, disk, &mut tree)?;
    kept.insert(key_of(entry), tree)?;
    Ok(check.finding)
}

/// Takes the tree of a file out of those that are kept, or makes it from what the torrent tells. Errors: out of
/// memory.
pub fn take_tree(
    alloc: Global,
    geometry: Geometry,
    entry: &FileEntry,
    size: PieceSize,
    kept: &mut BTreeMap<(Hash32, u64), SparseTree<FileHash>>,
) -> Result<SparseTree<FileHash>, AllocError>
    requires checkable { IsCheckable size.layer (file_of entry.now) }
    requires length { geometry ≡ entry.now.length }
    requires lawful { IsFileLength geometry }
    ensures tree { IfOk result (TakesTree size.layer (file_of entry.now) kept.old) }
    ensures kept { IfOk result (λ _. LeavesKept (file_of entry.now) kept.old kept.new) }
{
    match kept.remove(&key_of(entry)) {
        Some(tree) => Ok(tree),
        None => known_tree(alloc, geometry, entry, size),
    }
}
