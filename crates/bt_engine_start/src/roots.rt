//! One tree for each root: roots get numbers in the order in which they come first among the files, and each
//! file gets a slot that names its tree.
ghost use Rattle.std.specs.Prelude.{◌≡◌, ◌≢◌, ◌+◌, ◌<◌, ◌≤◌, length, map, slice_get, Some, OnOk, IfOk};
ghost use Rattle.std.specs.List.{AllPairs};
ghost use Rattle.bt_meta.specs.Files.{File, file_of};
ghost use Rattle.bt_meta.specs.Limits.{max_file_count};
ghost use Rattle.bt_meta.specs.Torrent.{HaveOneLengthPerRoot};
ghost use Rattle.bt_engine_state.specs.Roots.{AreNumbered, AreNextFiles};
ghost use Rattle.bt_engine_state.specs.Ties.{EachIsFirst};
ghost use Rattle.bt_engine_start.specs.RootsSteps.{AreByRoot, Extends, HasTreeAt, AreBareSlots, roots_and_lengths, roots_of};

use crate::next_files::next_files;
use bt_disk::Disk;
use bt_engine_state::{Roots, Slot};
use bt_meta::FileEntry;
use bt_tree::{Hash32, NodeHash};
use std::alloc::{AllocError, Global};
use std::collections::BTreeMap;

/// The roots of files, which have numbers in the order in which they come first.
#[derive(Drop)]
struct NumberedRoots {
    /// The first file of each.
    first_files: Vec<u32>,
    /// The number of each.
    numbers: BTreeMap<Hash32, u32>,
}

impl NumberedRoots {
    /// The number of a file's root, which it gets where it has none yet; 0 for an empty file, which has no
    /// tree. The roots of all files before have theirs. Errors: out of memory.
    fn number_of(&mut self, files: &[FileEntry], index: usize) -> Result<u32, AllocError>
        requires few { length files.now ≤ max_file_count }
        requires one_length { HaveOneLengthPerRoot (map file_of files.now) }
        requires inside { index < length files.now }
        requires limit { length self.old.first_files.items ≤ index }
        requires by_root { AreByRoot (map file_of files.now) index self.old.first_files.items
            self.old.numbers }
        ensures by_root { OnOk result (AreByRoot (map file_of files.now) (index + 1)
            self.new.first_files.items self.new.numbers) }
        ensures grown { OnOk result
            (Extends self.old.first_files.items self.new.first_files.items) }
        ensures limit { OnOk result (length self.new.first_files.items ≤ index + 1) }
        ensures number { IfOk result (λ t. (file : File) → slice_get (map file_of files.now) index
            ≡ Some file
            → HasTreeAt file
            (roots_and_lengths (map file_of files.now) self.new.first_files.items) t) }
    {
        let file = &files[index];
        if file.length == 0 {
            return Ok(0);
        }
        if let Some(number) = self.numbers.get(&file.root) {
            return Ok(*number);
        }
        let number = self.first_files.len() as u32;
        self.first_files.push(index as u32)?;
        self.numbers.insert(file.root, number)?;
        Ok(number)
    }
}

/// The trees and files of the roots of files, where trees have the order in which their roots come first; and
/// for each of the files a slot without a device. Errors: out of memory.
pub(crate) fn bare_slots<D: Disk + Drop, H: NodeHash>(
    alloc: Global,
    files: &[FileEntry],
) -> Result<(Roots, Vec<Slot<D, H>>), AllocError>
    requires few { length files.now ≤ max_file_count }
    requires one_length { HaveOneLengthPerRoot (map file_of files.now) }
    ensures firsts { IfOk result
        (λ made. EachIsFirst (map file_of files.now) made.0.first_files.items) }
    ensures nexts { IfOk result
        (λ made. AreNextFiles (map file_of files.now) made.0.next_files.items) }
    ensures numbered { IfOk result (λ made.
        AreNumbered (roots_of (map file_of files.now) made.0.first_files.items) made.0.trees) }
    ensures apart { IfOk result (λ made.
        AllPairs (λ r s. r ≢ s) (roots_of (map file_of files.now) made.0.first_files.items)) }
    ensures slots { IfOk result (λ made. AreBareSlots (map file_of files.now)
        (roots_and_lengths (map file_of files.now) made.0.first_files.items) made.1.items) }
{
    let next_files = next_files(alloc, files)?;
    let mut slots = Vec::with_capacity(alloc, files.len())?;
    let mut roots = NumberedRoots {
        first_files: Vec::new(alloc),
        numbers: BTreeMap::new(alloc),
    };
    for index in 0..files.len() {
        let tree = roots.number_of(files, index)?;
        slots.push(Slot { tree, store: None })?;
    }
    Ok((
        Roots {
            first_files: roots.first_files,
            next_files,
            trees: roots.numbers,
        },
        slots,
    ))
}
