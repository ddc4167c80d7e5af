//! Torrents of BitTorrent v2 (BEP 52).
#![tactic(auto)]

mod encode;
mod error;
mod fields;
mod file_path;
mod law;
mod layers;
mod piece_blocks;
mod properties;
mod reader;
mod torrent;
mod walk;
mod writer;

pub use bt_tree::MAX_FILE_LENGTH;
pub use error::MetaError;
pub use file_path::{FilePath, MAX_PATH_LENGTH};
pub use law::{
    block_ranges_are_places, blocks_and_ranges_agree, layers_are_of_trees,
    torrents_are_made_from_files, torrents_are_read_back, torrents_tell_files,
};
pub use piece_blocks::{BlockRun, PieceRange};
pub use reader::{MAX_TEXT_LENGTH, read_info, read_torrent};
pub use torrent::{FileEntry, Span, Torrent};
pub use walk::{MAX_FILES, MAX_PIECES};
pub use writer::{Made, MadeTorrent, MakeError, make, make_torrent};
