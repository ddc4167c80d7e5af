//! How many blocks each piece has; at the start that is its count of unmarked blocks.
ghost use Rattle.std.specs.Prelude.{IfOk};
ghost use Rattle.bt_engine_start.specs.BooksSteps.{ArePieceSizes};

use bt_meta::Torrent;
use std::alloc::{AllocError, Global};

/// How many blocks each piece has. Errors: out of memory.
pub(crate) fn piece_sizes(alloc: Global, torrent: &Torrent) -> Result<Vec<u32>, AllocError>
    ensures { IfOk result (λ sizes. ArePieceSizes torrent.now sizes.items) }
{
    let pieces = torrent.pieces();
    let mut sizes = Vec::with_capacity(alloc, pieces as usize)?;
    for piece in 0..pieces {
        let Some(run) = torrent.blocks_of(piece) else {
            unreachable!()
        };
        sizes.push(run.count)?;
    }
    Ok(sizes)
}
