//! Calls what reads, makes, digests and divides the data of a torrent as the rows of `stdin` say, and prints what
//! each call answers: `stdout` has what they are to answer. README.md tells the rows.
#![tactic(auto)]

mod bencode;
mod builder;
mod bytes;
mod digest;
mod make;
mod memory;
mod names;
mod parts;
mod shares;
mod stage;
mod torrent;
mod tree;

use bt_rows::print_answers;
use stage::Stage;
use std::io;

fn main(rt: HostRuntime) -> io::Result<()> {
    print_answers(&rt, Stage::new(rt.alloc()))
}
