//! Paths on which a name is one with another of its folder but for case.
ghost use Rattle.std.specs.Prelude.{◌≡◌, ◌≢◌, ◌+◌, ◌++◌, ◌∷◌, [], ◌≤◌, ◌<◌, fold, length, map, take, slice_get, string_bytes, vec_len, IfErr, IfOk, OnOk};
ghost use Rattle.std.specs.Bool.{OnFalse, OnTrue};
ghost use Rattle.std.specs.Path.{path_buf_bytes, path_join};
ghost use Rattle.bt_folder.specs.CasePaths.{GoesTo, HasNameOfAnother, HasNoPath, IsOwnPath, IsPathError, folder_on, last_path, texts};
ghost use Rattle.bt_folder.specs.CasePathsSteps.{AddsName, HasFurther, KeepsAbove};
ghost use Rattle.bt_folder.specs.CaseFolders.{IsOwnIn};
ghost use Rattle.bt_folder.specs.Lookup.{IsListingError};

use crate::case_folder::CaseFolder;
use crate::folder_names::ListingError;
use crate::lookup::Lookup;
use crate::paths_so_far::CasePaths;
use std::alloc::{AllocError, Global};
use std::path::PathBuf;
use std::rt::Files;

impl CasePaths {
    /// No path was looked at.
    pub fn new(alloc: Global) -> Self
        ensures { HasNoPath result }
    {
        CasePaths {
            path: Vec::new(alloc),
            folders: Vec::new(alloc),
        }
    }

    /// Whether each name of the next path is its own. The path's folders and its file have to be there. None is another's
    /// unless the folder's listing lacks it, or the name that it is one with.
    ///
    /// Errors: a folder can't be listed, or memory is refused. No path is looked at after that, or after a path of which
    /// a name is not its own.
    pub fn is_own<R: Files + AllocGlobal + Clone + Drop + Lookup>(
        &mut self,
        rt: &R,
        dir: &str,
        elements: &[&str],
    ) -> Result<bool, ListingError>
        ensures answer { IfOk result
            (IsOwnPath (R.lists rt.now) dir.now self.old self.new (texts elements.now)) }
        ensures of_another { IfOk result
            (λ is_own. OnFalse is_own (HasNameOfAnother self.old self.new (texts elements.now))) }
        ensures goes { IfOk result
            (λ is_own. OnTrue is_own (GoesTo self.old self.new (texts elements.now))) }
        ensures error { IfErr result (IsPathError (R.lists rt.now) dir.now (texts elements.now)) }
    {
        let shared = self.shared_len(elements);
        self.path.truncate(shared);
        self.folders.truncate(shared.saturating_add(1));
        for element in &elements[shared..] {
            if !self.is_own_name(rt, dir, element)? {
                return Ok(false);
            }
        }
        Ok(true)
    }

    /// How many elements the path begins with as the last one did.
    fn shared_len(&self, elements: &[&str]) -> usize
        ensures in_path { result ≤ vec_len self.now.path }
        ensures in_elements { result ≤ length elements.now }
        ensures same { map string_bytes (take result self.now.path.items) ≡ texts
            (take result elements.now) }
        ensures apart { result < length elements.now
            → slice_get (last_path self.now) result ≢ slice_get (texts elements.now) result }
    {
        for (place, element) in elements.iter().enumerate() {
            match self.path.get(place) {
                Some(last) if last.as_str() == *element => {}
                _ => return place,
            }
        }
        elements.len()
    }

    /// Goes on to a name in the folder that the path so far leads to.
    fn is_own_name<R: Files + AllocGlobal + Clone + Drop + Lookup>(
        &mut self,
        rt: &R,
        dir: &str,
        name: &str,
    ) -> Result<bool, ListingError>
        ensures path { OnOk result (last_path self.new ≡ last_path self.old ++ name.now ∷ []) }
        ensures folders { OnOk result (vec_len self.old.folders ≤ vec_len self.old.path + 1
            → vec_len self.new.folders ≤ vec_len self.old.path + 1) }
        ensures kept { OnOk result (KeepsAbove self.old self.new (vec_len self.old.path)) }
        ensures added { OnOk result (AddsName self.old self.new (vec_len self.old.path) name.now) }
        ensures answer { let depth = vec_len self.old.path in IfOk result
            (IsOwnIn (R.lists rt.now) (fold path_join dir.now (last_path self.old))
            (folder_on self.old depth) (folder_on self.new depth) name.now) }
        ensures error { IfErr result
            (IsListingError (R.lists rt.now) (fold path_join dir.now (last_path self.old))) }
    {
        let depth = self.path.len();
        let folder = folder_path(rt.alloc(), dir, &self.path)?;
        self.go_to(rt.alloc(), name)?;
        match self.folders.get_mut(depth) {
            Some(found) => found.is_own_name(rt, folder.as_path().as_str(), name),
            None => Ok(true),
        }
    }

    /// Puts a name after the path so far, whose folder it lies in.
    fn go_to(&mut self, alloc: Global, name: &str) -> Result<(), AllocError>
        ensures path { OnOk result (last_path self.new ≡ last_path self.old ++ name.now ∷ []) }
        ensures known { OnOk result (vec_len self.old.path < vec_len self.old.folders
            → self.new.folders.items ≡ self.old.folders.items) }
        ensures further { OnOk result (vec_len self.old.folders ≤ vec_len self.old.path
            → HasFurther self.old.folders.items self.new.folders.items) }
    {
        if self.folders.len() <= self.path.len() {
            self.folders.push(CaseFolder::new(alloc))?;
        }
        self.path.push(String::from_str(alloc, name)?)?;
        Ok(())
    }
}

/// The path of a folder below another.
fn folder_path(alloc: Global, dir: &str, elements: &[String]) -> Result<PathBuf, AllocError>
    ensures { IfOk result
        (λ path. path_buf_bytes path ≡ fold path_join dir.now (map string_bytes elements.now)) }
{
    let mut path = PathBuf::from_str(alloc, dir)?;
    for element in elements {
        path.push(element.as_str())?;
    }
    Ok(path)
}
