//! Calls devices of bytes, and stores of blocks and logs of hints on them, as the rows of `stdin` say, and prints
//! what each call answers: `stdout` has what they are to answer. README.md tells the rows.
#![tactic(auto)]

mod bytes;
mod calls;
mod device;
mod files;
mod fixture;
mod folders;
mod hints;
mod logs;
mod many;
mod pending;
mod shop;
mod stage;
mod store;
mod system;
mod unreadable;

use bt_devices::Seal;
use bt_rows::print_answers;
use files::{clear_folder, new_folder};
use stage::Stage;
use std::io;
use system::Counts;

fn main(rt: HostRuntime) -> anyhow::Result<()> {
    let top = new_folder(&rt)?;
    let counts = Counts::new();
    let printed = print_rows(&rt, &counts, top.as_str());
    clear_folder(&rt, top.as_str());
    Ok(printed?)
}

/// Answers the rows, whose files lie in a folder.
fn print_rows(rt: &HostRuntime, counts: &Counts, top: &str) -> io::Result<()> {
    let seal = Seal::new();
    print_answers(rt, Stage::new(rt, counts, &seal, top))
}
