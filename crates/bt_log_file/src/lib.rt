//! The file that the log of a torrent lies in: it is opened as a device of the torrent's engine, and is none of the
//! torrent's files.
#![tactic(auto)]

mod attaching;
mod device;
mod folder;
mod gapless_disk;
mod log_folder;
mod looking;
mod names;
mod opening;
mod other_files;
mod place;
mod touched_disk;

pub use device::{LogContext, LogDisk};
pub use gapless_disk::GaplessDisk;
pub use log_folder::LogFolder;
pub use looking::{is_data_file, refuse_data_file};
pub use opening::open_log;
pub use place::Place;
pub use touched_disk::TouchedDisk;
