//! How the blocks of a torrent's files are divided among the parts of a check.
ghost use Rattle.std.specs.Prelude.{◌≡◌, ◌+◌, ◌<◌, ◌≤◌, ◌↔◌, IsTrue};
ghost use Rattle.bt_parts.specs.Division.{IsFirstIn, cut_at, edge_of};
ghost use Rattle.bt_parts.specs.declared.cut.TheConstants.{MAX_PARTS, MAX_TOTAL};

use crate::cut::{Cut, Part, Share};
use bt_tree::BLOCK_LEN;

/// The share that a part has of a file, where `total` bytes are counted in all.
pub fn share_of(part: Part, total: u64, file: Cut) -> Share
    requires limit { total ≤ MAX_TOTAL }
    requires inside { file.place < total }
    ensures from { result.from ≡ cut_at file (edge_of total part.count part.index) }
    ensures to { result.to ≡ cut_at file (edge_of total part.count (part.index + 1)) }
    ensures first { IsTrue result.is_first ↔ IsFirstIn total part.count part.index file }
{
    let begin = edge_of(total, part.count, part.index);
    let end = edge_of(total, part.count, part.index + 1);
    Share {
        from: cut_at(file, begin),
        to: cut_at(file, end),
        is_first: begin <= file.place && file.place < end,
    }
}

/// The number of the byte at which a part begins, and the one before it ends.
fn edge_of(total: u64, count: u32, index: u32) -> u64
    requires limit { total ≤ MAX_TOTAL }
    requires few { index ≤ MAX_PARTS }
    requires some { 0 < count }
    ensures { result ≡ edge_of total count index }
{
    total * index as u64 / count as u64
}

/// The block at which a file is cut where all bytes are cut before one of them: the first of the units that begin there
/// or after it.
fn cut_at(file: Cut, edge: u64) -> u32
    ensures { result ≡ cut_at file edge }
{
    let behind = edge.saturating_sub(file.place);
    let units = behind.div_ceil(file.unit as u64 * BLOCK_LEN as u64);
    (units as u128 * file.unit as u128).min(file.blocks as u128) as u32
}
