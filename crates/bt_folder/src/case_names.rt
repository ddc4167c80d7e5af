//! Names of a folder that are one but for case.
ghost use Rattle.std.specs.Prelude.{◌≡◌, ℕ, List, None, string_bytes, IfOk, OnOk, OnErr};
ghost use Rattle.std.specs.Option.{option_map};
ghost use Rattle.std.specs.StrCase.Upper.{str_to_uppercase};
ghost use Rattle.bt_folder.specs.CaseNames.{name_with, with_name};

use std::alloc::{AllocError, Global};
use std::collections::BTreeMap;

/// Names of one folder, no two of which are one but for case: some file systems have one file for such names. Two
/// names are one but for case where they have the same capitals (Unicode, default case conversion).
#[derive(Drop)]
pub struct CaseNames {
    /// Each by its capitals.
    names: BTreeMap<String, String>,
}

impl CaseNames {
    /// A set with no name.
    pub fn new(alloc: Global) -> Self
        ensures { (capitals : List ℕ) → name_with result capitals ≡ None }
    {
        CaseNames {
            names: BTreeMap::new(alloc),
        }
    }

    /// The name that has the capitals of this one, which may be the same; where there is none, this one is added.
    ///
    /// Errors: memory is refused, and none is added.
    pub fn insert(&mut self, alloc: Global, name: &str) -> Result<Option<String>, AllocError>
        ensures twin { IfOk result (λ twin.
            option_map string_bytes twin ≡ name_with self.old (str_to_uppercase name.now)) }
        ensures added { OnOk result ((capitals : List ℕ) → name_with self.new capitals
            ≡ with_name name.now (name_with self.old) capitals) }
        ensures failed { OnErr result ((capitals : List ℕ) →
            name_with self.new capitals ≡ name_with self.old capitals) }
    {
        let capitals = name.to_uppercase(alloc)?;
        if let Some(twin) = self.names.get(capitals.as_str()) {
            return Ok(Some(twin.clone()?));
        }
        self.names.insert(capitals, String::from_str(alloc, name)?)?;
        Ok(None)
    }
}
