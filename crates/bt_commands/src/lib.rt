//! The program `btseed` as a whole: what its words ask for is done, and told as a text and a status.
#![tactic(auto)]

mod hints;
mod program;
mod refused_entry;
mod refused_tree;
mod system;

pub use program::{run, start};
pub use system::launch;
