//! The program over the system that it runs on.
ghost use Rattle.std.specs.Process.{exit_status};
ghost use Rattle.bt_commands.specs.System.{IsLaunch};

use crate::program::start;
use bt_devices::Watched;
use bt_host::{Errors, Host, Noted, Output};
use bt_progress::Console;
use std::fs::{File, OpenOptions};
use std::io::IsTerminal;
use std::os::fd::{AsRawFd, IntoRawFd, RawFd};
use std::process::ExitCode;

/// The standard streams have the descriptors 0 (input), 1 (output) and 2 (errors).
const STREAMS: RawFd = 3;

/// All that a `main` does: runs the program on the words of its environment, over the system's files and network and
/// its standard streams, and gives the status that it exits with. While standard error is a terminal, a line there
/// tells how far the work is.
pub fn launch(rt: &HostRuntime) -> ExitCode
    ensures { IsLaunch (exit_status result) }
{
    occupy_streams(rt);
    let stderr = rt.stderr();
    let console = Console::new(rt.alloc(), rt, stderr, stderr.is_terminal());
    let host = Host {
        rt,
        console: &console,
    };
    let input = Noted {
        inner: rt.stdin(),
        console: &console,
    };
    let stdout = rt.stdout();
    let output = Output {
        is_terminal: stdout.is_terminal(),
        inner: stdout,
        console: &console,
    };
    let mut errors = Errors {
        inner: rt.stderr(),
        console: &console,
    };
    // without memory for its name one is not named where it fails
    let input_name = String::from_str(rt.alloc(), "standard input").ok();
    let output_name = String::from_str(rt.alloc(), "standard output").ok();
    start(
        &host,
        &host,
        &console,
        &mut Watched::new(input, &console, input_name),
        &mut Watched::new(output, &console, output_name),
        &mut errors,
    )
}

/// Occupies the descriptors of standard streams that the program was started without, until it ends. Else the next
/// file that is opened would get one, and what is told on that stream would be written into it.
fn occupy_streams(rt: &HostRuntime) {
    for stream in 0..STREAMS {
        occupy(rt, stream);
    }
}

/// Occupies the descriptor of a standard stream, where it is the least that is free: the system gives a file that is
/// opened the least. The stream is a device that is opened the wrong way round, to write what is read and to read what
/// is written, so each call on it fails, as on a stream that is closed. Where there is no such device, a folder does.
fn occupy(rt: &HostRuntime, stream: RawFd) {
    let is_input = stream == 0;
    let device = OpenOptions::new()
        .read(!is_input)
        .write(is_input)
        .open(rt, "/dev/null");
    let opened = match device {
        Ok(file) => Ok(file),
        Err(_) => File::open(rt, "/"),
    };
    if let Ok(file) = opened {
        if file.as_raw_fd() == stream {
            // it stays open
            file.into_raw_fd();
        }
    }
}
