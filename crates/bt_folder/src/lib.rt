//! What a folder of data files needs beside their devices: two paths of one file are seen, and what was made
//! stays after a crash.
#![tactic(auto)]

mod case_folder;
mod case_names;
mod case_paths;
mod folder_names;
mod folder_sync;
mod known_files;
mod lookup;
mod paths_so_far;

pub use case_names::CaseNames;
pub use folder_names::{FolderNames, ListingError};
pub use folder_sync::{folder_above, make_folders, or_dot, sync_folder};
pub use known_files::KnownFiles;
pub use lookup::Lookup;
pub use paths_so_far::CasePaths;
