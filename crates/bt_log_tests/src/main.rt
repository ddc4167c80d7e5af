//! Feeds an engine that has a log with hashes and pieces, has it take in whole files, flush and begin anew, and prints what its
//! log's device has, as the rows of `stdin` say. `stdout` has what they are to answer. README.md tells the rows.
#![tactic(auto)]

mod again;
mod bytes;
mod device;
mod events;
mod fill;
mod hints;
mod notes;
mod peers;
mod stage;
mod stops;

use bt_rows::print_answers;
use stage::Stage;
use std::io;

fn main(rt: HostRuntime) -> io::Result<()> {
    print_answers(&rt, Stage::new(rt.alloc()))
}
