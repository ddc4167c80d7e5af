//! Runs of the program over stand-ins, which fail or give little.

use crate::device::{Device, Failing};
use crate::streams::{Lost, NEVER, Slow};
use bt_commands::run;
use bt_progress::Unwatched;
use bt_rows::bytes_of;
use std::io::{self, ErrorKind, Read, Write};

/// The words for the calls that fail.
const CALLS: &[(&str, Failing)] = &[
    ("nothing", Failing::Nothing),
    ("looks", Failing::Looks),
    ("opens", Failing::Opens),
    ("reads", Failing::Reads),
    ("last-reads", Failing::LastReads),
    ("writes", Failing::Writes),
    ("flushes", Failing::Flushes),
    ("syncs", Failing::Syncs),
    ("last-syncs", Failing::LastSyncs),
    ("folders", Failing::Folders),
    ("last-folders", Failing::LastFolders),
    ("dot-folders", Failing::DotFolders),
    ("renames", Failing::Renames),
    ("modes", Failing::Modes),
    ("removals", Failing::Removals),
    ("links", Failing::Links),
    ("listings", Failing::Listings),
    ("early-listings", Failing::EarlyListings),
    ("numbers", Failing::Numbers),
    ("input", Failing::Input),
    ("output", Failing::Output),
];

/// How many bytes standard input gives at a time.
const MOST: usize = 7;

/// Runs the program over a file system of which the first word says which calls fail, and the second, in hexadecimal, which names every folder
/// lists, and gives its status. Errors: there are no such words, or standard input can't be read.
pub fn status_of(rt: &HostRuntime, words: &[String]) -> io::Result<u8> {
    let [call, names, rest @ ..] = words else {
        return Err(io::Error::from(ErrorKind::InvalidInput));
    };
    let Some(failing) = call_named(call.as_str()) else {
        return Err(io::Error::from(ErrorKind::InvalidInput));
    };
    let Some(names) = bytes_of(rt.alloc(), names.as_str())? else {
        return Err(io::Error::from(ErrorKind::InvalidInput));
    };
    let device = Device {
        host: rt,
        failing,
        names: &names,
    };
    status_over(rt, &device, rest)
}

fn call_named(word: &str) -> Option<Failing> {
    for (name, failing) in CALLS {
        if *name == word {
            return Some(*failing);
        }
    }
    None
}

/// Runs the program over a device, with what standard input has.
fn status_over(rt: &HostRuntime, device: &Device<'_>, words: &[String]) -> io::Result<u8> {
    let mut input = Vec::new(rt.alloc());
    rt.stdin().read_to_end(&mut input)?;
    let mut reader = Slow::new(&input, MOST, NEVER);
    reader.fails_at_end = device.failing == Failing::Input;
    if device.failing == Failing::Output {
        Ok(status_with(rt, device, words, &mut reader, &mut Lost))
    } else {
        Ok(status_with(rt, device, words, &mut reader, &mut rt.stdout()))
    }
}

fn status_with<O: Write>(
    rt: &HostRuntime,
    device: &Device<'_>,
    words: &[String],
    reader: &mut Slow<'_>,
    writer: &mut O,
) -> u8 {
    let mut faults = rt.stderr();
    run(device, rt, &Unwatched, words, reader, writer, &mut faults)
}
