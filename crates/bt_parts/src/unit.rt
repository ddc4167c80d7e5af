//! What a file is cut into.
ghost use Rattle.std.specs.Prelude.{◌≡◌, ◌≤◌};
ghost use Rattle.bt_meta.specs.Files.{file_of};
ghost use Rattle.bt_tree.specs.Blocks.{block_count};
ghost use Rattle.bt_tree.specs.Limits.{max_file_length};
ghost use Rattle.bt_parts.specs.Unit.{unit_of};

use bt_check::PieceSize;
use bt_meta::FileEntry;
use bt_tree::Geometry;

/// How many blocks of a file are not parted: a piece, and eight blocks where pieces are shorter, since eight are
/// digested together. A file of which no piece hashes are known is not parted.
pub fn unit_of(file: &FileEntry, size: PieceSize) -> u32
    requires { file.now.length ≤ max_file_length }
    ensures { result ≡ unit_of size.layer (file_of file.now) }
{
    if file.layer.is_empty() {
        return blocks_of(file.length).max(1);
    }
    1 << size.layer.max(3)
}

/// How many blocks a file has.
pub fn blocks_of(length: u64) -> u32
    requires { length ≤ max_file_length }
    ensures { result ≡ block_count length }
{
    match Geometry::new(length) {
        Some(geometry) => geometry.blocks(),
        None => 0,
    }
}
