//! The trees with which an engine begins, one for each root, made from what the torrent has of the root's
//! first file.
ghost use Rattle.std.specs.Prelude.{◌≡◌, IfOk, length};
ghost use Rattle.sha2.specs.Sha256.{sha256};
ghost use Rattle.bt_engine_state.specs.Ties.{EachIsFirst};
ghost use Rattle.bt_engine_start.specs.TreesSteps.{AreTreesOf};

use crate::new_tree::new_tree;
use bt_meta::Torrent;
use bt_sparse::SparseTree;
use bt_tree::{Geometry, NodeHash};
use std::alloc::{AllocError, Global};

/// The trees that a torrent has of these files, each of which is the first of its root that has a byte.
/// Errors: out of memory.
pub(crate) fn new_trees<H: NodeHash>(
    alloc: Global,
    hash: H,
    torrent: &Torrent,
    first_files: &[u32],
) -> Result<Vec<SparseTree<H>>, AllocError>
    requires digest { H.digest ≡ sha256 }
    requires firsts { EachIsFirst torrent.now.files first_files.now }
    ensures { IfOk result (λ trees. AreTreesOf H.digest torrent.now first_files.now trees.items) }
{
    torrent.keeps_laws();
    let files = torrent.files();
    let mut trees = Vec::with_capacity(alloc, first_files.len())?;
    for number in first_files {
        let file = &files[*number as usize];
        let Some(geometry) = Geometry::new(file.length) else {
            unreachable!()
        };
        trees.push(new_tree(alloc, hash, torrent, file, geometry)?)?;
    }
    Ok(trees)
}
