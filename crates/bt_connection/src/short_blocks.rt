//! The short last blocks of a torrent's files.
ghost use Rattle.std.specs.Prelude.{◌≡◌, ◌≤◌, Some, length, IfOk, IfSome, Contains};
ghost use Rattle.bt_meta.specs.Limits.{max_file_count};
ghost use Rattle.bt_connection.specs.ShortBlocks.{short_blocks_of};

use bt_meta::Torrent;
use bt_tree::BLOCK_LEN;
use bt_wire::Ask;
use std::alloc::{AllocError, Global};
use std::marker::Model;

/// The short last blocks of a torrent's files, in the order of their pieces. A file has one at most, and so has a
/// piece.
#[derive(Debug, Drop)]
pub struct ShortBlocks {
    blocks: Vec<Ask>,
}

impl Model for ShortBlocks {
    ghost use Rattle.std.specs.Prelude.{List};
    ghost use Rattle.bt_wire.specs.declared.message.Ask.{Ask};
    ghost use Rattle.bt_connection.specs.ShortBlocks.{AreInTurn};

    ghost Value = { List Ask };

    ghost view = { λ b. b.blocks.items };

    ghost invariant = { λ b. AreInTurn b.blocks.items };
}

impl ShortBlocks {
    /// Finds the short last blocks of a torrent's files: at most 65,536. Errors: out of memory.
    pub fn new(alloc: Global, torrent: &Torrent) -> Result<Self, AllocError>
        ensures of_torrent { IfOk result (λ blocks. blocks ≡ short_blocks_of torrent.now) }
        ensures few { IfOk result (λ blocks. length blocks ≤ max_file_count) }
    {
        torrent.keeps_laws();
        let files = torrent.files();
        let mut blocks = Vec::new(alloc);
        for file in 0..files.len() as u32 {
            let whole = files[file as usize].length / BLOCK_LEN as u64;
            if let Some(range) = torrent.range_of(file, whole as u32) {
                blocks.push(Ask {
                    piece: range.piece,
                    begin: range.begin,
                    length: range.length,
                })?;
            }
        }
        Ok(ShortBlocks { blocks })
    }

    /// The short block that begins at the byte `begin` of the piece `piece`. None where none does.
    pub fn at(&self, piece: u32, begin: u32) -> Option<Ask>
        ensures some { IfSome result (Contains self.now) }
        ensures piece { IfSome result (λ ask. ask.piece ≡ piece) }
        ensures begin { IfSome result (λ ask. ask.begin ≡ begin) }
        ensures only { (ask : Ask) → Contains self.now ask → ask.piece ≡ piece → ask.begin ≡ begin
            → result ≡ Some ask }
    {
        let index = self.blocks.partition_point(|ask| ask.piece < piece);
        match self.blocks.get(index) {
            Some(ask) if ask.piece == piece && ask.begin == begin => Some(*ask),
            _ => None,
        }
    }
}
