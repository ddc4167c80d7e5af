//! What an engine has of its blocks and peers when it begins: a request book that wants all blocks, a count
//! of unmarked blocks for each piece, none that waits, no piece whose leaves are known, and no peer.
ghost use Rattle.std.specs.Prelude.{IfOk};
ghost use Rattle.bt_engine_start.specs.BooksSteps.{AreNewBooks};

use crate::block_counts::block_counts;
use crate::new_book::new_book;
use crate::piece_sizes::piece_sizes;
use bt_book::Book;
use bt_engine_state::{Counts, MAX_PEERS, Peer, PieceSet};
use bt_meta::Torrent;
use std::alloc::{AllocError, Global};

/// What an engine keeps of its blocks and peers, beside its trees and files.
#[derive(Drop)]
pub(crate) struct Books {
    /// How many blocks are not marked, and how many wait.
    pub counts: Counts,
    /// Pieces of whose blocks each leaf is known.
    pub known: PieceSet,
    pub peers: Vec<Peer>,
    pub book: Book,
}

/// The books of a torrent of which all blocks are missing, and of which no leaf need be known. No peer is
/// connected. Errors: out of memory.
pub(crate) fn new_books(alloc: Global, torrent: &Torrent) -> Result<Books, AllocError>
    ensures { IfOk result (λ books. AreNewBooks torrent.now books) }
{
    let blocks = block_counts(alloc, torrent.files())?;
    Ok(Books {
        counts: Counts {
            unmarked: piece_sizes(alloc, torrent)?,
            waiting: 0,
        },
        known: PieceSet::new(alloc, torrent.pieces())?,
        peers: Vec::with_capacity(alloc, MAX_PEERS)?,
        book: new_book(alloc, &blocks)?,
    })
}
