//! How many blocks each file has.
ghost use Rattle.std.specs.Prelude.{◌≡◌, ◌≤◌, All, IfOk, map};
ghost use Rattle.bt_tree.specs.Limits.{max_file_length};
ghost use Rattle.bt_tree.specs.Blocks.{block_count};

use bt_meta::FileEntry;
use bt_tree::Geometry;
use std::alloc::{AllocError, Global};

/// How many blocks each file has. Errors: out of memory.
pub(crate) fn block_counts(alloc: Global, files: &[FileEntry]) -> Result<Vec<u32>, AllocError>
    requires short { All (λ file. file.length ≤ max_file_length) files.now }
    ensures { IfOk result (λ counts. counts.items ≡ map (λ file. block_count file.length)
        files.now) }
{
    let mut counts = Vec::with_capacity(alloc, files.len())?;
    for file in files {
        counts.push(blocks_in(file.length))?;
    }
    Ok(counts)
}

/// How many blocks a file of this length has.
fn blocks_in(length: u64) -> u32
    requires { length ≤ max_file_length }
    ensures { result ≡ block_count length }
{
    match Geometry::new(length) {
        Some(geometry) => geometry.blocks(),
        None => 0,
    }
}
