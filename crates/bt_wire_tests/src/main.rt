//! Calls what makes and reads the bytes of the wire as the rows of `stdin` say, and prints what each call
//! answers: `stdout` has what they are to answer. README.md tells the rows.
#![tactic(auto)]

mod bodies;
mod book;
mod bytes;
mod cutter;
mod held;
mod key;
mod map_body;
mod message;
mod random;
mod serve;
mod stage;
mod tree;

use bt_rows::print_answers;
use stage::Stage;
use std::io;

fn main(rt: HostRuntime) -> io::Result<()> {
    print_answers(&rt, Stage::new(rt.alloc())?)
}
