//! Names of a torrent's files that are one with the name of a log's file but for case.
ghost use Rattle.std.specs.Prelude.{◌≡◌, ◌-◌, ◌↔◌, not, length, map, option_copied, slice_get, Err, IfErr, IfNone, IfOk, IfSome, IsTrue, MatchBool};
ghost use Rattle.std.specs.StrCase.Upper.{str_to_uppercase};
ghost use Rattle.bt_folder.specs.Lookup.{IsListingError};
ghost use Rattle.bt_meta.specs.Files.{file_of};
ghost use Rattle.bt_check.specs.Paths.{path_below};
ghost use Rattle.bt_log_file.specs.Folder.{folder_of};
ghost use Rattle.bt_log_file.specs.Names.{AreAlike, AreNoneAlike, HasBoth, HasFileByName, HasNoFileByName, IsFileByName, IsFolderOf, IsNoFileByName};

use crate::folder::folder_of;
use crate::looking::are_one;
use bt_check::data_path;
use bt_folder::{ListingError, Lookup};
use bt_meta::{FileEntry, FilePath};
use std::alloc::{AllocError, Global};
use std::path::Path;
use std::rt::Files;

/// Whether no file of a torrent, below a folder, is the one at a path by a name which differs from its own in case
/// alone. Some file systems have one file for such names, and yet tell two inodes. The file has to be there, and all
/// those of the torrent.
///
/// Such names are looked for in the folder of the path alone. Where there is one, both have to stand in the folder's
/// listing: then they are two files. So mostly no folder is listed. Errors: it can't be, or memory is refused.
pub(crate) fn is_own_name<R: Files + AllocGlobal + Clone + Drop + Lookup>(
    rt: &R,
    dir: &str,
    files: &[FileEntry],
    path: &str,
) -> Result<bool, ListingError>
    ensures is_own { let all = map file_of files.now in IfOk result (λ is_own. MatchBool is_own
        (HasNoFileByName (R.tells rt.now) (R.lists rt.now) dir.now all path.now)
        (HasFileByName (R.tells rt.now) (R.lists rt.now) dir.now all path.now)) }
    ensures error { IfErr result (IsListingError (R.lists rt.now) (folder_of path.now)) }
{
    for file in files {
        if is_name_of(rt, dir, &file.path, path)? {
            return Ok(false);
        }
    }
    Ok(true)
}

/// Whether a file of a torrent is the one at a path by such a name.
fn is_name_of<R: Files + AllocGlobal + Clone + Drop + Lookup>(
    rt: &R,
    dir: &str,
    file: &FilePath,
    path: &str,
) -> Result<bool, ListingError>
    ensures is_name { IfOk result (λ is_name. MatchBool is_name
        (IsFileByName (R.tells rt.now) (R.lists rt.now) dir.now file.now path.now)
        (IsNoFileByName (R.tells rt.now) (R.lists rt.now) dir.now file.now path.now)) }
    ensures error { IfErr result (IsListingError (R.lists rt.now) (folder_of path.now)) }
{
    let Some((name, other)) = alike_names(rt.alloc(), file, path)? else {
        return Ok(false);
    };
    let folder = folder_of(path);
    if !is_folder_of(rt, folder, dir, file)? {
        return Ok(false);
    }
    lacks_one(rt, folder, name, other)
}

/// The last names of a path and of a torrent's file, where they differ in case alone.
fn alike_names<'a>(
    alloc: Global,
    file: &'a FilePath,
    path: &'a str,
) -> Result<Option<(&'a str, &'a str)>, AllocError>
    ensures names { IfOk result
        (λ names. IfSome names (λ p. AreAlike file.now path.now p.0.now p.1.now)) }
    ensures none { IfOk result (λ names. IfNone names (AreNoneAlike file.now path.now)) }
{
    let Some(name) = Path::new(path).file_name() else {
        return Ok(None);
    };
    let Some(other) = last_name(file) else {
        return Ok(None);
    };
    if name == other {
        return Ok(None);
    }
    if !are_alike(alloc, name, other)? {
        return Ok(None);
    }
    Ok(Some((name, other)))
}

/// The name that a file of a torrent has in its folder.
fn last_name(file: &FilePath) -> Option<&str>
    ensures { option_copied result ≡ slice_get file.now (length file.now - 1) }
{
    let elements = file.elements();
    elements.as_slice().last().copied()
}

/// Whether two names have the same capitals.
fn are_alike(alloc: Global, name: &str, other: &str) -> Result<bool, AllocError>
    ensures { IfOk result (λ alike. IsTrue alike ↔ (str_to_uppercase name.now
        ≡ str_to_uppercase other.now)) }
{
    let capitals = name.to_uppercase(alloc)?;
    let others = other.to_uppercase(alloc)?;
    Ok(capitals.as_str() == others.as_str())
}

/// Whether a folder is the one that a file of a torrent lies in, below another folder, by what the system tells of both.
fn is_folder_of<R: Files + AllocGlobal + Clone + Drop + Lookup>(
    rt: &R,
    folder: &str,
    dir: &str,
    file: &FilePath,
) -> Result<bool, AllocError>
    ensures { IfOk result (IsFolderOf (R.tells rt.now) folder.now (path_below dir.now file.now)) }
{
    let file = data_path(rt.alloc(), dir, file)?;
    let one = rt.identity_at(folder);
    let other = rt.identity_at(folder_of(file.as_path().as_str()));
    Ok(are_one(one, other))
}

/// Whether the listing of a folder lacks one of two names.
fn lacks_one<R: Files + AllocGlobal + Clone + Drop + Lookup>(
    rt: &R,
    folder: &str,
    name: &str,
    other: &str,
) -> Result<bool, ListingError>
    ensures lacks { IfOk result
        (λ lacks. HasBoth (R.lists rt.now) folder.now name.now other.now (not lacks)) }
    ensures error { IfErr result (λ error. R.lists rt.now folder.now (Err error)) }
{
    let listing = rt.names_in(folder)?;
    Ok(!(listing.has(name) && listing.has(other)))
}
