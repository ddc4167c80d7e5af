//! Runs lists of events and sessions with peers on engines whose files lie in memory, the peers' bytes too; tries peers in turn and many at once, opens
//! sockets of this machine with itself, passes conversations through a reader and a writer of `bt_connection`, reads ahead by
//! that and `bt_devices`, and lets trees take the proofs of logs, as the rows of `stdin` say. `stdout` has what they are to answer. README.md
//! tells the rows.
#![tactic(auto)]

mod ahead;
mod answers;
mod asking;
mod buffer;
mod bytes;
mod device;
mod ends;
mod engine;
mod event;
mod flushes;
mod gate;
mod hints;
mod links;
mod lists;
mod member;
mod names;
mod notes;
mod partner;
mod plays;
mod row;
mod run;
mod scene;
mod script;
mod sessions;
mod sockets;
mod stage;
mod swarms;
mod tale;
mod talk;
mod talks;

use stage::Stage;
use std::alloc::{AllocError, Global};
use std::io;

fn main(rt: HostRuntime) -> io::Result<()> {
    let mut stage = Stage::new(rt.alloc(), &rt);
    let printed = print_answers(&rt, &mut stage);
    drop(stage);
    printed
}

fn print_answers(rt: &HostRuntime, stage: &mut Stage<'_>) -> io::Result<()> {
    print_lines(rt, stage)?;
    let answer = last_answer(rt.alloc(), stage)?;
    print!(rt; "{answer}")?;
    Ok(())
}

fn print_lines(rt: &HostRuntime, stage: &mut Stage<'_>) -> io::Result<()> {
    for line in rt.lines(rt.alloc()) {
        let line = line?;
        print_line(rt, stage, line.as_str())?;
    }
    Ok(())
}

fn print_line(rt: &HostRuntime, stage: &mut Stage<'_>, row: &str) -> io::Result<()> {
    let answer = answer_of(rt.alloc(), stage, row)?;
    print!(rt; "{answer}")?;
    Ok(())
}

fn answer_of(alloc: Global, stage: &mut Stage<'_>, row: &str) -> Result<String, AllocError> {
    let mut out = String::new(alloc);
    stage.answer(alloc, row, &mut out)?;
    Ok(out)
}

fn last_answer(alloc: Global, stage: &mut Stage<'_>) -> Result<String, AllocError> {
    let mut out = String::new(alloc);
    stage.finish(alloc, &mut out)?;
    Ok(out)
}
