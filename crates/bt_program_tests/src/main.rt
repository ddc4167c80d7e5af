//! The program `btseed` once more, and the rows that test it. By the word `rows` it gives standard input to a shell, with its own path, so
//! that rows start it as a process: on any other words it is `btseed`, but for some with which rows help themselves, or have it run over
//! stand-ins for files, devices, readers, writers and the network.
#![tactic(auto)]

mod bytes;
mod device;
mod failing;
mod haste;
mod peer;
mod reading;
mod rows;
mod streams;

use bt_commands::launch;
use std::process::ExitCode;
use std::{env, io};

fn main(rt: HostRuntime) -> ExitCode {
    match words(&rt) {
        Ok(words) => answer(&rt, &words),
        Err(_) => launch(&rt),
    }
}

/// The words of the command line, the program's own path the first.
fn words(rt: &HostRuntime) -> io::Result<Vec<String>> {
    Ok(env::args(rt)?.collect(rt.alloc())?)
}

fn answer(rt: &HostRuntime, words: &[String]) -> ExitCode {
    let [path, role, rest @ ..] = words else {
        return launch(rt);
    };
    match role.as_str() {
        "rows" => ended(rt, rows::run(rt, path.as_str())),
        "bytes" => ended(rt, bytes::print(rt, rest)),
        "peer" => ended(rt, peer::meet(rt, rest)),
        _ => on_stand_ins(rt, role.as_str(), rest),
    }
}

/// What stand-ins are for, or else the program itself.
fn on_stand_ins(rt: &HostRuntime, role: &str, words: &[String]) -> ExitCode {
    match role {
        "failing" => exited(rt, failing::status_of(rt, words)),
        "hasty" => ExitCode::from(haste::status_of(rt, words)),
        "parts" => exited(rt, haste::status_by_parts(rt, words)),
        "text" => exited(rt, reading::text(rt, words)),
        "digest" => exited(rt, reading::digest(rt, words)),
        "entry" => exited(rt, reading::entry(rt, false, words)),
        "entry-info" => exited(rt, reading::entry(rt, true, words)),
        _ => launch(rt),
    }
}

/// The status of what only rows ask for.
fn ended(rt: &HostRuntime, end: io::Result<()>) -> ExitCode {
    match end {
        Ok(()) => ExitCode::SUCCESS,
        Err(error) => exited(rt, Err(error)),
    }
}

/// The same, where it gives one.
fn exited(rt: &HostRuntime, end: io::Result<u8>) -> ExitCode {
    match end {
        Ok(status) => ExitCode::from(status),
        Err(error) => {
            let _ = eprintln!(rt; "{error}");
            ExitCode::FAILURE
        }
    }
}
