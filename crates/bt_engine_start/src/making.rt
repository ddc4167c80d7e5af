//! All that takes memory when an engine begins, or begins anew, but for slots and devices: trees, books, and
//! the runs of blocks that a log records.
ghost use Rattle.std.specs.Prelude.{◌≡◌, IfOk};
ghost use Rattle.sha2.specs.Sha256.{sha256};
ghost use Rattle.bt_engine_state.specs.Parts.{hints_of};
ghost use Rattle.bt_engine_state.specs.Roots.{AreNumbered};
ghost use Rattle.bt_engine_state.specs.Ties.{EachIsFirst};
ghost use Rattle.bt_engine_start.specs.BooksSteps.{AreNewBooks};
ghost use Rattle.bt_engine_start.specs.MakingSteps.{AreTreesFrom};
ghost use Rattle.bt_engine_start.specs.RootsSteps.{roots_of};
ghost use Rattle.bt_engine_start.specs.Runs.{AreRunsOf};

use crate::books::{Books, new_books};
use crate::runs::MarkRun;
use crate::taking::take_hints;
use crate::trees::new_trees;
use bt_disk::Disk;
use bt_engine_state::{OpenLog, Roots};
use bt_meta::Torrent;
use bt_sparse::SparseTree;
use bt_tree::NodeHash;
use std::alloc::{AllocError, Global};

/// The trees that a torrent has of these roots, which have taken the proofs of a log; books of which all blocks
/// are missing; and the runs of blocks that the log records. Without a log there is no proof and no run. It
/// goes once over the trees with their layers, the pieces, the blocks and the log's hints. Errors: out of
/// memory.
pub(crate) fn made_anew<D: Disk + Drop, H: NodeHash>(
    alloc: Global,
    hash: H,
    torrent: &Torrent,
    roots: &Roots,
    log: &Option<OpenLog<D>>,
) -> Result<(Vec<SparseTree<H>>, Books, Vec<MarkRun>), AllocError>
    requires digest { H.digest ≡ sha256 }
    requires firsts { EachIsFirst torrent.now.files roots.now.first_files.items }
    requires numbered { AreNumbered
        (roots_of torrent.now.files roots.now.first_files.items) roots.now.trees }
    ensures trees { IfOk result (λ made. AreTreesFrom H.digest
        torrent.now roots.now.first_files.items (hints_of log.now) made.0.items) }
    ensures books { IfOk result (λ made. AreNewBooks torrent.now made.1) }
    ensures runs { IfOk result (λ made. AreRunsOf (hints_of log.now) made.2.items) }
{
    let mut trees = new_trees(alloc, hash, torrent, &roots.first_files)?;
    let runs = take_hints(alloc, &mut trees, roots, log)?;
    Ok((trees, new_books(alloc, torrent)?, runs))
}
