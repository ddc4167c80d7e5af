//! One folder on paths whose names are looked at.
ghost use Rattle.std.specs.Prelude.{◌≡◌, ◌&&◌, ℕ, List, IfErr, IfOk, OnOk};
ghost use Rattle.bt_folder.specs.CaseNames.{name_with, with_name};
ghost use Rattle.bt_folder.specs.CaseFolders.{HasNoName, IsOwnBeside, IsOwnIn};
ghost use Rattle.bt_folder.specs.FolderNames.{has_name};
ghost use Rattle.bt_folder.specs.Lookup.{IsListingError};

use crate::case_names::CaseNames;
use crate::folder_names::{FolderNames, ListingError};
use crate::lookup::Lookup;
use std::alloc::Global;
use std::rt::Files;

/// The names of one folder that were looked at, and its last listing, once it was read.
#[derive(Drop)]
pub(crate) struct CaseFolder {
    names: CaseNames,
    listing: Option<FolderNames>,
}

impl CaseFolder {
    /// A folder of which no name was looked at.
    pub(crate) fn new(alloc: Global) -> Self
        ensures { HasNoName result }
    {
        CaseFolder {
            names: CaseNames::new(alloc),
            listing: None,
        }
    }

    /// Whether the next name is its own, where the folder lies at this path.
    pub(crate) fn is_own_name<R: Files + AllocGlobal + Clone + Drop + Lookup>(
        &mut self,
        rt: &R,
        folder: &str,
        name: &str,
    ) -> Result<bool, ListingError>
        ensures added { OnOk result ((capitals : List ℕ) → name_with self.new.names capitals
            ≡ with_name name.now (name_with self.old.names) capitals) }
        ensures answer { IfOk result
            (IsOwnIn (R.lists rt.now) folder.now (Some self.old) (Some self.new) name.now) }
        ensures error { IfErr result (IsListingError (R.lists rt.now) folder.now) }
    {
        let Some(twin) = self.names.insert(rt.alloc(), name)? else {
            return Ok(true);
        };
        self.stand(rt, folder, twin.as_str(), name)
    }

    /// Whether two names stand in the folder's listing. That which is held may have been read before their files were
    /// made, so where it lacks one of them, the folder is listed again: at most once for each name with a twin.
    fn stand<R: Files + AllocGlobal + Clone + Drop + Lookup>(
        &mut self,
        rt: &R,
        folder: &str,
        twin: &str,
        name: &str,
    ) -> Result<bool, ListingError>
        ensures names { self.new.names ≡ self.old.names }
        ensures stand { IfOk result (IsOwnBeside
            (R.lists rt.now) folder.now self.old.listing self.new.listing twin.now name.now) }
        ensures error { IfErr result (IsListingError (R.lists rt.now) folder.now) }
    {
        if let Some(listing) = &self.listing
            && have_both(listing, twin, name)
        {
            return Ok(true);
        }
        let listing = rt.names_in(folder)?;
        let stand = have_both(&listing, twin, name);
        self.listing = Some(listing);
        Ok(stand)
    }
}

fn have_both(listing: &FolderNames, twin: &str, name: &str) -> bool
    ensures { result ≡ (has_name listing.now twin.now && has_name listing.now name.now) }
{
    listing.has(twin) && listing.has(name)
}
