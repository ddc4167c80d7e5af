//! The blocks of a piece, and the range of its piece that a block is.
ghost use Rattle.std.specs.Prelude.{◌<◌, ◌↔◌, IfSome, IsSome};
ghost use Rattle.bt_meta.specs.Torrent.{total_pieces};
ghost use Rattle.bt_meta.specs.PieceBlocks.{HasBlock, ArePieceBlocks, IsBlockRange};

use crate::torrent::Torrent;
use bt_tree::{BLOCK_LEN, piece_layer};

/// The blocks of a piece: a run of one file's blocks.
#[derive(Clone, Copy, Debug, PartialEq, Eq)]
pub struct BlockRun {
    /// The index of the file.
    pub file: u32,
    /// The index of the first block in the file.
    pub first: u32,
    /// How many blocks there are: 1 to 16,384.
    pub count: u32,
}

/// A range of a piece, as a request names it (BEP 3).
#[derive(Clone, Copy, Debug, PartialEq, Eq)]
pub struct PieceRange {
    /// The index of the piece.
    pub piece: u32,
    /// The byte of the piece at which the range begins.
    pub begin: u32,
    /// How many bytes it has.
    pub length: u32,
}

impl Torrent {
    /// The blocks of a piece. None where the torrent has no such piece.
    pub fn blocks_of(&self, piece: u32) -> Option<BlockRun>
        ensures variant { IsSome result ↔ piece < total_pieces self.now }
        ensures value { IfSome result (ArePieceBlocks self.now piece) }
    {
        let files = self.files();
        let index = self.last_file_at(piece)?;
        let file = &files[index];
        let per_piece = 1u32 << piece_layer(self.piece_length());
        let first = (piece - file.first_piece) as u64 * per_piece as u64;
        let blocks = file.length.div_ceil(BLOCK_LEN as u64);
        if first >= blocks {
            return None;
        }
        Some(BlockRun {
            file: index as u32,
            first: first as u32,
            count: (blocks - first).min(per_piece as u64) as u32,
        })
    }

    /// The range of its piece that a block of a file is, of 1 to 16,384 bytes. None where the torrent has no
    /// such file, or the file no such block.
    pub fn range_of(&self, file: u32, block: u32) -> Option<PieceRange>
        ensures variant { IsSome result ↔ HasBlock self.now file block }
        ensures value { IfSome result (IsBlockRange self.now file block) }
    {
        let entry = self.files().get(file as usize)?;
        let start = BLOCK_LEN as u64 * block as u64;
        if start >= entry.length {
            return None;
        }
        let per_piece = 1 << piece_layer(self.piece_length());
        // How many pieces there are bounds the sum.
        let pieces = self.pieces();
        let piece = entry.first_piece + block / per_piece;
        prove!(piece < pieces);
        Some(PieceRange {
            piece,
            begin: block % per_piece * BLOCK_LEN as u32,
            length: (entry.length - start).min(BLOCK_LEN as u64) as u32,
        })
    }
}
