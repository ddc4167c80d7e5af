//! The hash tree with which a file begins (BEP 52): it knows the piece layer, where the torrent has the
//! file's, and else the root alone.
ghost use Rattle.std.specs.Prelude.{◌≡◌, IfOk};
ghost use Rattle.sha2.specs.Sha256.{sha256};
ghost use Rattle.bt_meta.specs.Files.{file_of};
ghost use Rattle.bt_meta.specs.Torrent.{IsLawfulFile};
ghost use Rattle.bt_machine.specs.Start.{IsTreeFrom};

use bt_meta::{FileEntry, Torrent, layers_are_of_trees};
use bt_sparse::SparseTree;
use bt_tree::{Geometry, NodeHash, piece_layer};
use std::alloc::{AllocError, Global};

/// The tree of a file of the torrent that has a block: the layer that the torrent has of it, else the root
/// alone. Errors: out of memory.
pub(crate) fn new_tree<H: NodeHash>(
    alloc: Global,
    hash: H,
    torrent: &Torrent,
    file: &FileEntry,
    geometry: Geometry,
) -> Result<SparseTree<H>, AllocError>
    requires digest { H.digest ≡ sha256 }
    requires lawful { IsLawfulFile torrent.now.piece_length (file_of file.now) }
    requires length { geometry ≡ file.now.length }
    ensures { IfOk result (IsTreeFrom H.digest torrent.now (file_of file.now)) }
{
    layers_are_of_trees();
    let layer = piece_layer(torrent.piece_length());
    SparseTree::from_torrent(alloc, hash, geometry, file.root, layer, &file.layer)
}
