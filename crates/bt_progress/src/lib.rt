//! How far long work is, and which call on a file failed: what a program tells of it beside its results, to a
//! `Watch`. The `Console` of the program is a `Watch` that writes to standard error.
#![tactic(auto)]

mod console;
mod escape;
mod file_call;
mod hint;
mod line;
mod meter;
mod reason;
mod screen;
mod watch;

pub use console::Console;
pub use escape::{escaped, escaped_lines, is_told_as_it_is, write_escaped_lines};
pub use file_call::{FileCall, fault_line};
pub use hint::hint_line;
pub use line::{progress_line, size_text};
pub use meter::Meter;
pub use reason::system_reason;
pub use screen::is_due;
pub use watch::{Unwatched, Watch};
