//! The system that the program runs on: its files, network, processes and standard streams, of which a console learns
//! why calls fail.
#![tactic(auto)]

mod host;
mod host_files;
mod host_net;
mod streams;

pub use host::Host;
pub use host_files::Noted;
pub use streams::{Errors, Output};
