//! Where files lie, and how the path of a torrent's file is written.
ghost use Rattle.std.specs.Prelude.{◌≡◌, IfOk, map, string_bytes};
ghost use Rattle.std.specs.Path.{path_buf_bytes};
ghost use Rattle.bt_check.specs.Paths.{path_below, path_text};

use bt_meta::FilePath;
use std::alloc::{AllocError, Global};
use std::path::PathBuf;

/// Where the data file of a torrent's file lies: at its path, below the folder.
pub fn data_path(alloc: Global, dir: &str, path: &FilePath) -> Result<PathBuf, AllocError>
    ensures { IfOk result (λ file. path_buf_bytes file ≡ path_below dir.now path.now) }
{
    let elements = path.elements();
    let elements = elements.as_slice();
    let mut file = PathBuf::from_str(alloc, dir)?;
    for element in elements {
        file.push(*element)?;
    }
    Ok(file)
}

/// Where what a walk finds lies: at its elements, below the folder that is walked.
pub fn found_path(alloc: Global, dir: &str, elements: &[String]) -> Result<PathBuf, AllocError>
    ensures { IfOk result
        (λ path. path_buf_bytes path ≡ path_below dir.now (map string_bytes elements.now)) }
{
    let mut path = PathBuf::from_str(alloc, dir)?;
    for element in elements {
        path.push(element.as_str())?;
    }
    Ok(path)
}

/// The elements of a path, joined by `/`.
pub fn joined_path(alloc: Global, path: &FilePath) -> Result<String, AllocError>
    ensures { IfOk result (λ text. string_bytes text ≡ path_text path.now) }
{
    let elements = path.elements();
    elements.as_slice().join(alloc, "/")
}
