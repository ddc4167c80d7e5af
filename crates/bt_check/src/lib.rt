//! What a program that makes, shows and checks torrents of BitTorrent v2 (BEP 52) reads, and what it says of it:
//! torrents, the data files that they tell of, and the digests of files.
//!
//! All of it is over readers, devices and writers, but for the opening of files.
#![tactic(auto)]

mod call_fault;
mod check;
mod data_file;
mod digests;
mod display;
mod entry_check;
mod fault;
mod file_hash;
mod hint;
mod output;
mod paths;
mod pieces;
mod reader;
mod report;
mod show;
mod torrent_file;
mod trees;

pub use call_fault::{fault_name, is_device_fault, told};
pub use check::check_torrent;
pub use data_file::{Finding, OPEN_FILES, open_data_file};
pub use digests::{Digests, digest_reader};
pub use display::display_name;
pub use entry_check::length_of;
pub use fault::{Fault, system_fault};
pub use file_hash::FileHash;
pub use output::print;
pub use paths::{data_path, found_path};
pub use pieces::PieceSize;
pub use reader::BUFFER_LEN;
pub use report::{FileFinding, Summary, last_words, write_line};
pub use show::show_torrent;
pub use torrent_file::{Source, load, load_watched, read_text};
pub use trees::{SharedTrees, key_of, take_tree};
