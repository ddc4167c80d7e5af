//! The data files of a torrent, and what a check finds of one.
ghost use Rattle.std.specs.Prelude.{◌≡◌, ◌⊎◌, ◌↔◌, map, IfOk, IfErr, IfSome, IsSome, IsSomeAnd, IsTrue};
ghost use Rattle.std.specs.List.{All};
ghost use Rattle.std.specs.Path.{path_buf_bytes};
ghost use Rattle.bt_meta.specs.Files.{file_of};
ghost use Rattle.bt_check.specs.DataFile.{file_at, AreOfOnePool, IsAbsence, IsAtPath, IsNextOf};
ghost use Rattle.bt_check.specs.Fault.{device, out_of_memory};
ghost use Rattle.bt_check.specs.Paths.{path_below};

use crate::call_fault::fault_name;
use crate::fault::Fault;
use crate::paths::data_path;
use bt_devices::Watched;
use bt_disk::{HandlePool, PooledDisk, is_absence};
use bt_meta::FileEntry;
use bt_progress::{FileCall, Watch};
use std::fs;
use std::io::ErrorKind;
use std::path::PathBuf;
use std::rt::Files;

/// How many data files are held open at a time.
pub const OPEN_FILES: usize = 16;

/// What a check found of one file: how many blocks it has, how many of them are marked as right, whether its
/// data file is longer than the torrent says, and whether a call of its device failed.
#[derive(Clone, Copy, Debug, PartialEq, Eq)]
pub struct Finding {
    pub blocks: u32,
    pub marked: u32,
    pub longer: bool,
    pub faulty: bool,
}

impl Finding {
    ghost use Rattle.bt_check.specs.Finding.{is_complete_finding};

    /// Whether the data file is the torrent's: all its blocks are marked, it is not longer, and no call
    /// failed.
    pub fn is_complete(self) -> bool
        ensures { result ≡ is_complete_finding self }
    {
        self.marked == self.blocks && !self.longer && !self.faulty
    }
}

/// A file of a torrent, and the device that has its bytes: none where no file can be at its path.
#[derive(Drop)]
pub struct DataFile<'a, D> {
    pub file: &'a FileEntry,
    pub disk: Option<D>,
}

/// Opens the data files of some entries, in turn, to read them. They share a few handles, and tell of their
/// calls; the bytes of those that are there are to be read. Errors: a device fault, where one can't be opened,
/// or is no regular file; out of memory.
pub fn open_data_files<'a, R: Files + AllocGlobal + Clone + Drop, P: Watch>(
    rt: &R,
    watch: &'a P,
    dir: &str,
    entries: &'a [FileEntry],
) -> Result<Vec<DataFile<'a, Watched<'a, PooledDisk<R>, P>>>, Fault>
    ensures each { IfOk result (λ files. map file_at files.items ≡ map file_of entries.now) }
    ensures paths { IfOk result (λ files. All (IsAtPath dir.now) files.items) }
    ensures one_pool { IfOk result (λ files. AreOfOnePool files.items) }
    ensures fault { IfErr result (λ fault. (fault ≡ device) ⊎ (fault ≡ out_of_memory)) }
{
    let mut pool = HandlePool::new(rt.alloc(), rt.clone()?, OPEN_FILES)?;
    let mut files = Vec::new(rt.alloc());
    for file in entries {
        let disk = open_watched(rt, watch, &mut pool, dir, file)?;
        files.push(DataFile { file, disk })?;
    }
    Ok(files)
}

/// Opens the data file of an entry to read it, as `open_data_file` does, and tells of it.
fn open_watched<'a, R: Files + AllocGlobal + Drop, P: Watch>(
    rt: &R,
    watch: &'a P,
    pool: &mut HandlePool<R>,
    dir: &str,
    file: &FileEntry,
) -> Result<Option<Watched<'a, PooledDisk<R>, P>>, Fault>
    ensures path { IfOk result (λ found. IfSome found
        (λ disk. disk.path ≡ path_below dir.now (file_of file.now).path)) }
    ensures next { IfOk result (IsNextOf pool.old.made pool.new.made) }
    ensures fault { IfErr result (λ fault. (fault ≡ device) ⊎ (fault ≡ out_of_memory)) }
{
    let path = data_path(rt.alloc(), dir, &file.path)?;
    let name = fault_name(rt.alloc(), watch, path.as_path().as_str())?;
    let found = open_data_file(rt, pool, path);
    watched(watch, name, file.length, found)
}

/// The device of a file of `length` bytes, which are to be read, as one that tells of its calls by this name. A fault
/// in opening it is told of too.
fn watched<'a, D: Drop, P: Watch>(
    watch: &'a P,
    name: Option<String>,
    length: u64,
    found: Result<Option<D>, Fault>,
) -> Result<Option<Watched<'a, D, P>>, Fault>
    ensures { result ≡ found }
{
    match found {
        Ok(Some(disk)) => {
            watch.expect(length);
            Ok(Some(Watched::new(disk, watch, name)))
        }
        Ok(None) => Ok(None),
        Err(fault) => {
            if let Some(name) = name {
                watch.tell_fault(FileCall::Open, name.as_str());
            }
            Err(fault)
        }
    }
}

/// Opens a data file to read it; none where no file can be at the path, which is not kept then: a torrent may
/// have many long ones. Errors: a device fault, where the file can't be opened, or what is there is no regular
/// file, which is not opened, since a pipe would wait for a writer.
pub fn open_data_file<R: Files + Drop>(
    rt: &R,
    pool: &mut HandlePool<R>,
    path: PathBuf,
) -> Result<Option<PooledDisk<R>>, Fault>
    ensures path { IfOk result (λ found. IfSome found (λ disk. disk.path ≡ path_buf_bytes path)) }
    ensures next { IfOk result (IsNextOf pool.old.made pool.new.made) }
    ensures fault { IfErr result (λ fault. fault ≡ device) }
{
    let trouble = fs::metadata(rt, path.as_path())
        .err()
        .map(|error| error.kind());
    device_at(pool, path, trouble)
}

/// The device of a path, a look at which met this trouble: none where that says that no file can be there.
fn device_at<R: Files + Drop>(
    pool: &mut HandlePool<R>,
    path: PathBuf,
    trouble: Option<ErrorKind>,
) -> Result<Option<PooledDisk<R>>, Fault>
    ensures absent { IsSomeAnd trouble IsAbsence → result ≡ Ok None }
    ensures present { ¬ IsSomeAnd trouble IsAbsence → IfOk result (λ found. IsSome found) }
    ensures path { IfOk result (λ found. IfSome found (λ disk. disk.path ≡ path_buf_bytes path)) }
    ensures next { IfOk result (IsNextOf pool.old.made pool.new.made) }
    ensures fault { IfErr result (λ fault. fault ≡ device) }
{
    if tells_absence(trouble) {
        return Ok(None);
    }
    Ok(Some(pool.reading(path.into_string())?))
}

/// Whether the trouble that a look at a path met says that no file can be there.
fn tells_absence(trouble: Option<ErrorKind>) -> bool
    ensures { IsTrue result ↔ IsSomeAnd trouble IsAbsence }
{
    match trouble {
        Some(kind) => is_absence(kind),
        None => false,
    }
}
