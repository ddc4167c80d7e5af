//! A torrent's data files as the devices of an engine: they are opened, what they have is taken in, at the end all is
//! put on the disk, and how far they are is told. Nothing here speaks of peers.
#![tactic(auto)]

mod adoption;
mod data_files;
mod device_context;
mod ending;
mod file_use;
mod folder_trail;
mod hints;
mod lacking;
mod loading;
mod open_folder;
mod own_paths;
mod own_torrent;
mod report;
mod store;
mod store_log;
mod waiting;

pub use adoption::adopt_files;
pub use data_files::DataDisk;
pub use device_context::DeviceContext;
pub use ending::conclude;
pub use file_use::FileUse;
pub use lacking::begin_fetching;
pub use loading::load_store;
pub use report::write_report;
pub use store::{Store, finish, flush_fault};
pub use waiting::adopt_waiting;
