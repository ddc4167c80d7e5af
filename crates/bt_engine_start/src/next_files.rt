//! Which file comes next of those that have one root, so that the files of a tree are found without a look at
//! others.
ghost use Rattle.std.specs.Prelude.{◌≡◌, ◌+◌, ◌<◌, ◌≤◌, length, map, slice_get, Some, OnOk, IfOk};
ghost use Rattle.bt_meta.specs.Files.{File, file_of};
ghost use Rattle.bt_meta.specs.Limits.{max_file_count};
ghost use Rattle.bt_engine_state.specs.Roots.{AreNextFiles, IsFirstFrom, IsOfRoot};
ghost use Rattle.bt_engine_start.specs.RootsSteps.{AreFirstsFrom};

use bt_meta::FileEntry;
use bt_tree::Hash32;
use std::alloc::{AllocError, Global};
use std::collections::BTreeMap;

/// For each of the files that has a byte the next one of its root that has one, or the count of files where
/// there is none. Errors: out of memory.
pub(crate) fn next_files(alloc: Global, files: &[FileEntry]) -> Result<Vec<u32>, AllocError>
    requires { length files.now ≤ max_file_count }
    ensures { IfOk result (λ nexts. AreNextFiles (map file_of files.now) nexts.items) }
{
    let mut nexts = vec![in alloc; 0; files.len()]?;
    fill_next_files(alloc, files, &mut nexts)?;
    Ok(nexts)
}

/// Goes over the files from the last one back, and knows the first of each root among those that it has seen.
fn fill_next_files(alloc: Global, files: &[FileEntry], nexts: &mut [u32]) -> Result<(), AllocError>
    requires few { length files.now ≤ max_file_count }
    requires count { length nexts.old ≡ length files.now }
    ensures { OnOk result (AreNextFiles (map file_of files.now) nexts.new) }
{
    let mut firsts = BTreeMap::new(alloc);
    for index in (0..files.len()).rev() {
        let next = put_first(&mut firsts, files, index)?;
        nexts[index] = next;
    }
    Ok(())
}

/// Makes a file the first of its root, where it has a byte, and gives the one that was the first before; the
/// count of files where there was none. Errors: out of memory.
fn put_first(
    firsts: &mut BTreeMap<Hash32, u32>,
    files: &[FileEntry],
    index: usize,
) -> Result<u32, AllocError>
    requires few { length files.now ≤ max_file_count }
    requires inside { index < length files.now }
    requires firsts { AreFirstsFrom (map file_of files.now) (index + 1) firsts.old }
    ensures firsts { OnOk result (AreFirstsFrom (map file_of files.now) index firsts.new) }
    ensures next { IfOk result (λ next. (file : File) → slice_get (map file_of files.now) index
        ≡ Some file
        → 0 < file.length
        → IsFirstFrom (IsOfRoot (map file_of files.now) file.root) (length files.now)
        (index + 1) next) }
{
    let count = files.len() as u32;
    let file = &files[index];
    if file.length == 0 {
        return Ok(count);
    }
    let next = firsts.insert(file.root, index as u32)?;
    Ok(next.unwrap_or(count))
}
