//! The paths of a torrent's files, which share the elements of their folders.
ghost use Rattle.std.specs.Prelude.{◌≡◌, ℕ, ◌+◌, ◌<◌, ◌≤◌, ◌++◌, ◌∷◌, [], length, IfOk, string_bytes};
ghost use Rattle.arrayvec.specs.ArrayVec.{array_vec_len};
ghost use Rattle.bt_meta.specs.Limits.{max_path_length};
ghost use Rattle.bt_meta.specs.FilePath.{texts, folder_elements};

use arrayvec::ArrayVec;
use std::alloc::{AllocError, Global};
use std::marker::Model;
use std::rc::Rc;

/// How many elements a path has at most.
pub const MAX_PATH_LENGTH: usize = 64;

/// The path of a folder; none at the top of the tree.
pub(crate) type FolderPath = Option<Rc<FilePath>>;

/// The path of a file, or of a folder: the names of the folders that it lies in, from the top, and then its
/// own. It has 1 to 64 elements. Each folder's name is kept once, for all that lies in the folder.
#[derive(Debug, Drop)]
pub struct FilePath {
    folder: FolderPath,
    name: String,
    /// How many elements it has.
    count: usize,
}

impl Model for FilePath {
    ghost use Rattle.std.specs.Prelude.{◌≡◌, ℕ, ◌+◌, ◌≤◌, List, [], ◌∷◌, ◌++◌, length, string_bytes};
    ghost use Rattle.std.proofs.Common.{arith, length-append};
    ghost use Rattle.bt_meta.specs.Limits.{max_path_length};
    ghost use Rattle.bt_meta.specs.FilePath.{folder_elements};

    ghost Value = { List (List ℕ) };

    ghost view = { λ p. folder_elements p.folder ++ string_bytes p.name ∷ [] };

    ghost invariant = { λ p.
        (p.count ≡ length (folder_elements p.folder) + 1) × (p.count ≤ max_path_length) };

    ghost size = { length };

    ghost size_decreases = { λ p h. Prim.grind (arith, length-append) };
}

impl FilePath {
    /// The path of what has this name in the folder.
    pub(crate) fn inside(
        alloc: Global,
        folder: &FolderPath,
        name: &str,
    ) -> Result<FilePath, AllocError>
        requires { length (folder_elements folder.now) < max_path_length }
        ensures { IfOk result (λ path. path ≡ folder_elements folder.now ++ name.now ∷ []) }
    {
        let name = String::from_str(alloc, name)?;
        let count = folder_length(folder) + 1;
        let folder = match folder {
            Some(folder) => Some(folder.clone()?),
            None => None,
        };
        Ok(FilePath {
            folder,
            name,
            count,
        })
    }

    /// How many elements it has.
    pub(crate) fn len(&self) -> usize
        ensures { result ≡ length self.now }
    {
        self.count
    }

    /// The path's elements, from the top down. It takes no memory.
    pub fn elements(&self) -> ArrayVec<&str, 64>
        ensures { texts result.items ≡ self.now }
    {
        let mut elements = ArrayVec::new();
        // A proof knows how long a path is at most only from a step that looks at its fields.
        let _ = &self.name;
        self.push_elements(&mut elements);
        elements
    }

    fn push_elements<'a>(&'a self, elements: &mut ArrayVec<&'a str, 64>)
        requires { array_vec_len elements.old + length self.now ≤ max_path_length }
        ensures { texts elements.new.items ≡ texts elements.old.items ++ self.now }
    {
        if let Some(folder) = &self.folder {
            folder.push_elements(elements);
        }
        elements.push(self.name.as_str());
    }
}

/// How many elements the path of a folder has: 0 at the top.
pub(crate) fn folder_length(folder: &FolderPath) -> usize
    ensures { result ≡ length (folder_elements folder.now) }
{
    match folder {
        Some(folder) => folder.len(),
        None => 0,
    }
}
