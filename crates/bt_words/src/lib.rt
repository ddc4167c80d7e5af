//! What the words of the program's command line ask for: a task, with what it is to work on.
#![tactic(auto)]

mod command_line;
mod peer;
mod subcommands;
mod values;

pub use command_line::{CheckTask, FetchTask, MakeTask, SeedTask, ShowTask, Task, Work, parse};
pub use peer::{Peer, Service, Serving};
