//! The files of a folder and its subfolders.
ghost use Rattle.std.specs.Prelude.{◌≡◌, ◌⊎◌, [], Some, None, true, false, length, map, string_bytes, IfOk, OnOk, IfErr, if◌then◌else◌};
ghost use Rattle.std.specs.List.{All};
ghost use Rattle.std.specs.Fs.{IsDir, IsFile};
ghost use Rattle.std.specs.String.{string_cmp};
ghost use Rattle.std.specs.BTreeMap.{IsOrdered};
ghost use Rattle.bt_check.specs.Fault.{device, out_of_memory};
ghost use Rattle.bt_make.specs.AtomicFileSteps.{is_part_name};
ghost use Rattle.bt_make.specs.Folder.{Ascend, HasElement, IsListingFault, file_paths, listing_fault, path_behind};
ghost use Rattle.bt_make.specs.FolderSteps.{GoesOn, IsBegun, PutsEntries};
ghost use Rattle.bt_make.specs.declared.folder.EntryKind.TheVariants.{File, Folder};

use crate::atomic_file::is_part_name;
use crate::device_call::of_device;
use crate::hints::hint_at_bad_name;
use bt_check::{Fault, found_path, system_fault, told};
use bt_meta::MakeError;
use bt_progress::{FileCall, Watch};
use std::alloc::{AllocError, Global};
use std::collections::BTreeMap;
use std::fs::{self, DirEntry, FileType, ReadDir};
use std::io::{self, ErrorKind};
use std::path::Path;
use std::rt::Files;

/// What a torrent takes of a folder.
#[derive(Clone, Copy)]
pub enum EntryKind {
    File,
    Folder,
}

/// A file or a folder that a walk comes to. Its path is its name after the first `depth` elements of the
/// path of the entry before it. So none is kept: where folders lie deep, paths are much longer than names.
#[derive(Drop)]
pub struct FolderEntry {
    pub name: String,
    pub depth: usize,
    pub kind: EntryKind,
}

/// The files in a folder and its subfolders, and the subfolders, each before what lies in it. They are folder
/// by folder in the order of the names' bytes, so the files are in that of their paths.
/// A symbolic link is left out, and so is anything else that is neither a file nor a folder, and a part file
/// that a run left which was ended while it wrote.
///
/// Errors: a name is not UTF-8, which is refused; a folder can't be listed, which is a device fault, and told
/// of; out of memory.
pub fn files_in<R: Files + AllocGlobal + Clone + Drop, P: Watch>(
    rt: &R,
    watch: &P,
    dir: &str,
) -> Result<Vec<FolderEntry>, Fault>
    ensures named { IfOk result (λ entries. All HasElement (file_paths [] entries.items)) }
    ensures ascending { IfOk result (λ entries. Ascend (file_paths [] entries.items)) }
    ensures fault { IfErr result IsListingFault }
{
    let mut walk = walk_in(rt, watch, dir)?;
    // A bound, so that it ends whatever the system gives.
    for _ in 0..u64::MAX {
        let more = go_on(rt, watch, dir, &mut walk)?;
        if !more {
            return Ok(walk.entries);
        }
    }
    Err(Fault::Device)
}

/// How far a walk is: the entries that it found, those that wait, the next one last, and the path of the last one
/// that it found.
#[derive(Drop)]
struct Walk {
    entries: Vec<FolderEntry>,
    waiting: Vec<FolderEntry>,
    path: Vec<String>,
}

/// A walk that begins in a folder.
fn walk_in<R: Files + AllocGlobal + Clone + Drop, P: Watch>(
    rt: &R,
    watch: &P,
    dir: &str,
) -> Result<Walk, Fault>
    ensures walk { IfOk result IsBegun }
    ensures fault { IfErr result IsListingFault }
{
    let mut waiting = Vec::new(rt.alloc());
    push_entries(rt, watch, dir, &[], &mut waiting)?;
    Ok(Walk {
        entries: Vec::new(rt.alloc()),
        waiting,
        path: Vec::new(rt.alloc()),
    })
}

/// Finds the next entry. False where none waits.
fn go_on<R: Files + AllocGlobal + Clone + Drop, P: Watch>(
    rt: &R,
    watch: &P,
    dir: &str,
    walk: &mut Walk,
) -> Result<bool, Fault>
    ensures went { IfOk result (λ more. more ≡ true → GoesOn walk.old walk.new) }
    ensures ended { IfOk result (λ more. more ≡ false → walk.new.entries.items
        ≡ walk.old.entries.items) }
    ensures fault { IfErr result IsListingFault }
{
    let Some(entry) = walk.waiting.pop() else {
        return Ok(false);
    };
    go_to(rt, watch, dir, &entry, &mut walk.path, &mut walk.waiting)?;
    walk.entries.push(entry)?;
    Ok(true)
}

/// Goes on to an entry from the one before it, which had this path, and puts what it has onto those that wait.
fn go_to<R: Files + AllocGlobal + Clone + Drop, P: Watch>(
    rt: &R,
    watch: &P,
    dir: &str,
    entry: &FolderEntry,
    path: &mut Vec<String>,
    waiting: &mut Vec<FolderEntry>,
) -> Result<(), Fault>
    ensures path { OnOk result (map string_bytes path.new.items
        ≡ path_behind (map string_bytes path.old.items) entry.now) }
    ensures file { OnOk result (entry.now.kind ≡ File → waiting.new.items ≡ waiting.old.items) }
    ensures folder { OnOk result (entry.now.kind ≡ Folder
        → PutsEntries (length path.new.items) waiting.old.items waiting.new.items) }
    ensures fault { IfErr result IsListingFault }
{
    follow(path, entry)?;
    match entry.kind {
        EntryKind::File => Ok(()),
        EntryKind::Folder => push_entries(rt, watch, dir, path, waiting),
    }
}

/// Goes on to an entry from the one before it, which had this path.
pub fn follow(path: &mut Vec<String>, entry: &FolderEntry) -> Result<(), AllocError>
    ensures { OnOk result (map string_bytes path.new.items
        ≡ path_behind (map string_bytes path.old.items) entry.now) }
{
    path.truncate(entry.depth);
    path.push(entry.name.clone()?)?;
    Ok(())
}

/// Puts the entries of a folder onto those that wait, the first one last.
fn push_entries<R: Files + AllocGlobal + Clone + Drop, P: Watch>(
    rt: &R,
    watch: &P,
    dir: &str,
    folder: &[String],
    waiting: &mut Vec<FolderEntry>,
) -> Result<(), Fault>
    ensures put { OnOk result
        (PutsEntries (length folder.now) waiting.old.items waiting.new.items) }
    ensures fault { IfErr result IsListingFault }
{
    let mut names = names_below(rt, watch, dir, folder)?;
    let depth = folder.len();
    while let Some((name, kind)) = names.pop_last() {
        waiting.push(FolderEntry { name, depth, kind })?;
    }
    Ok(())
}

/// The names of the files and the folders in one that lies below another. A fault of the device is told of.
fn names_below<R: Files + AllocGlobal + Clone + Drop, P: Watch>(
    rt: &R,
    watch: &P,
    dir: &str,
    folder: &[String],
) -> Result<BTreeMap<String, EntryKind>, Fault>
    ensures ordered { IfOk result (IsOrdered string_cmp) }
    ensures fault { IfErr result IsListingFault }
{
    let path = found_path(rt.alloc(), dir, folder)?;
    let outcome = names_in(rt, path.as_path());
    hint_at_bad_name(rt.alloc(), watch, path.as_path().as_str(), &outcome);
    told(
        rt.alloc(),
        watch,
        FileCall::List,
        path.as_path().as_str(),
        outcome,
    )
}

/// The names of the files and the folders in a folder.
fn names_in<R: Files + AllocGlobal + Clone + Drop>(
    rt: &R,
    folder: Path<'_>,
) -> Result<BTreeMap<String, EntryKind>, Fault>
    ensures ordered { IfOk result (IsOrdered string_cmp) }
    ensures fault { IfErr result IsListingFault }
{
    match fs::read_dir(rt, folder) {
        Ok(entries) => names_among(rt.alloc(), entries),
        Err(error) => Err(system_fault(error.kind())),
    }
}

/// The names of the files and the folders among the entries of a folder.
fn names_among<R: Files + AllocGlobal + Clone + Drop>(
    alloc: Global,
    entries: ReadDir<R>,
) -> Result<BTreeMap<String, EntryKind>, Fault>
    ensures ordered { IfOk result (IsOrdered string_cmp) }
    ensures fault { IfErr result IsListingFault }
{
    let mut names = BTreeMap::new(alloc);
    for entry in entries {
        insert_listed(alloc, &mut names, entry)?;
    }
    Ok(names)
}

/// Inserts the name of an entry that was read, if it is a file or a folder.
fn insert_listed<R: Files + AllocGlobal + Clone + Drop>(
    alloc: Global,
    names: &mut BTreeMap<String, EntryKind>,
    entry: io::Result<DirEntry<R>>,
) -> Result<(), Fault>
    requires { IsOrdered string_cmp names.old }
    ensures ordered { IsOrdered string_cmp names.new }
    ensures fault { IfErr result IsListingFault }
{
    match entry {
        Ok(entry) => insert_name(alloc, names, &entry),
        Err(error) => Err(listing_fault(error.kind())),
    }
}

/// Inserts the name of an entry, if it is a file or a folder.
fn insert_name<R: Files + AllocGlobal + Clone + Drop>(
    alloc: Global,
    names: &mut BTreeMap<String, EntryKind>,
    entry: &DirEntry<R>,
) -> Result<(), Fault>
    requires { IsOrdered string_cmp names.old }
    ensures ordered { IsOrdered string_cmp names.new }
    ensures fault { IfErr result (λ fault. (fault ≡ device) ⊎ (fault ≡ out_of_memory)) }
{
    let name = entry.file_name();
    if let Some(kind) = kind_of(name, entry_type(entry)?) {
        names.insert(String::from_str(alloc, name)?, kind)?;
    }
    Ok(())
}

/// The type of an entry, also of a link and not of what it leads to. To ask for it takes no memory, so that
/// fails by the device alone.
fn entry_type<R: Files>(entry: &DirEntry<R>) -> Result<FileType, Fault>
    ensures { IfErr result (λ fault. fault ≡ device) }
{
    of_device(entry.file_type())
}

/// What an entry is to a torrent: none for what is left out, a symbolic link, a pipe, a socket or a device,
/// and a part file of a run that was ended.
fn kind_of(name: &str, file_type: FileType) -> Option<EntryKind>
    ensures file { IsFile file_type → is_part_name name.now ≡ false → result ≡ Some File }
    ensures part { IsFile file_type → is_part_name name.now ≡ true → result ≡ None }
    ensures folder { IsDir file_type → result ≡ Some Folder }
    ensures other { ¬ IsFile file_type → ¬ IsDir file_type → result ≡ None }
{
    if file_type.is_file() {
        file_kind(is_part_name(name.as_bytes()))
    } else if file_type.is_dir() {
        Some(EntryKind::Folder)
    } else {
        None
    }
}

/// What a regular file is to a torrent.
fn file_kind(is_part: bool) -> Option<EntryKind>
    ensures { result ≡ (if is_part then None else Some File) }
{
    if is_part { None } else { Some(EntryKind::File) }
}

/// The fault of an error in reading the next name of a folder: here alone a name that is not valid is one
/// that is not UTF-8.
fn listing_fault(kind: ErrorKind) -> Fault
    ensures { result ≡ listing_fault kind }
{
    match kind {
        ErrorKind::InvalidFilename => Fault::Make(MakeError::BadPath),
        _ => system_fault(kind),
    }
}
