//! The rows, which a shell runs.

use std::io::ErrorKind;
use std::process::Command;
use std::{env, io};

/// Gives standard input to a shell, of which this program's path is the first word. Errors: the shell can't be started, or its last row
/// failed.
pub fn run(rt: &HostRuntime, program: &str) -> io::Result<()> {
    let mut shell = Command::new(rt.alloc(), "/bin/sh")?;
    shell.arg("-su")?.arg(program)?;
    if shell.status(rt)?.success() {
        Ok(())
    } else {
        Err(io::Error::from(ErrorKind::Other))
    }
}
