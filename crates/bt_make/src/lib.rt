//! The torrent that is made of a folder's files, and how it is written to its file.
#![tactic(auto)]

mod advice;
mod atomic_file;
mod command;
mod device_call;
mod folder;
mod hints;
mod left_out;
mod limits;
mod new_torrent;

pub use atomic_file::{ReadyTorrent, publish};
pub use command::{FolderFile, make};
pub use device_call::of_device;
pub use new_torrent::NewTorrent;
