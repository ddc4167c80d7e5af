//! All that an engine has, in one struct: its torrent, trees, files, peers, request book and log.
use crate::counts::Counts;
use crate::open_log::OpenLog;
use crate::peer::Peer;
use crate::piece_set::PieceSet;
use crate::roots::Roots;
use crate::slot::Slot;
use bt_book::Book;
use bt_disk::Disk;
use bt_meta::Torrent;
use bt_sparse::SparseTree;
use bt_tree::NodeHash;

/// What an engine has.
#[derive(Drop)]
pub struct Parts<D: Disk + Drop, H: NodeHash> {
    pub torrent: Torrent,
    /// One for each root.
    pub trees: Vec<SparseTree<H>>,
    /// Which tree and which files each root has.
    pub roots: Roots,
    /// One for each file, in the torrent's order.
    pub slots: Vec<Slot<D, H>>,
    /// How many blocks are not marked, and how many wait.
    pub counts: Counts,
    /// Pieces of whose blocks each leaf is known, so that no hash is needed of them. There may be others.
    pub known: PieceSet,
    /// In the order of their keys.
    pub peers: Vec<Peer>,
    /// It wants the missing blocks, and each peer has joined it.
    pub book: Book,
    /// How many keys were given out.
    pub last_key: u64,
    pub turn: u64,
    pub log: Option<OpenLog<D>>,
}
