//! Scripts of events, and what they answer.
#![tactic(auto)]

mod answer;
mod arguments;
mod command;
mod devices;
mod event;
mod fault;
mod field;
mod line;
mod output;
mod reader;
mod run;
mod script;
mod settings;
mod word;

pub use answer::push_answer;
pub use command::replay;
pub use fault::ReplayFault;
pub use line::Line;
pub use reader::MAX_SCRIPT_LENGTH;
