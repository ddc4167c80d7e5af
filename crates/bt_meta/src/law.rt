//! Laws of torrents: one that was made is read back and tells its files by length and root, unless two inputs
//! have one digest; and its layers, pieces, blocks and ranges fit together.
ghost use Rattle.bt_meta.specs.Law.{SpellsOneTorrent, IsRefusedForMemoryAlone, IsMadeFromGivenFiles, DescribesNoOther, IsTreeLayer, LiesInItsPiece, BeginsBehindBlocks, RunHasBlocks, RangeHasPiece, RangeIsPlace, PlaceIsRange};

use bt_tree::{Plain, roots_tell_files};

/// The law by which a torrent that was made is read back: no bytes spell two torrents, and bytes that spell
/// one are refused with `OutOfMemory` alone. It does nothing when it runs.
pub fn torrents_are_read_back()
    ensures one_torrent { SpellsOneTorrent }
    ensures refused_for_memory { IsRefusedForMemoryAlone }
{}

/// The law by which `make` makes torrents of files: where what it is given of each file is the file's path,
/// its length and, unless it is empty, its root, the torrent that its text spells is made from these files.
/// It does nothing when it runs.
pub fn torrents_are_made_from_files()
    ensures { IsMadeFromGivenFiles }
{}

/// The law by which a torrent tells the files that it is made from: bytes that have the length and the root
/// of one of them are that file, or at one node of their trees two different inputs have one digest. It does
/// nothing when it runs.
pub fn torrents_tell_files()
    ensures { DescribesNoOther }
{
    roots_tell_files(Plain);
}

/// The law by which a file's layer serves as a layer of its tree: the layer that a lawful file has is the one
/// whose nodes have the blocks of a piece, below the file's root. It does nothing when it runs.
pub fn layers_are_of_trees()
    ensures { IsTreeLayer }
{}

/// The laws by which `Torrent::blocks_of` and `Torrent::range_of` are each other's inverse: the range of a
/// block lies in a piece of the torrent, and in that piece alone whose run has the block, after the bytes of
/// the run's blocks before it; and each block of a run is one of the torrent. They do nothing when they run.
pub fn blocks_and_ranges_agree()
    ensures in_piece { LiesInItsPiece }
    ensures behind { BeginsBehindBlocks }
    ensures has_block { RunHasBlocks }
    ensures has_piece { RangeHasPiece }
{}

/// The laws by which `Torrent::range_of` and `Torrent::place` agree: the range of a block has its place where
/// the block begins in its file, and a place that is a whole block is that block's range. They do nothing
/// when they run.
pub fn block_ranges_are_places()
    ensures place { RangeIsPlace }
    ensures range { PlaceIsRange }
{}
