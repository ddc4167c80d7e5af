//! An engine on devices in memory, over eight lanes.

use bt_disk::{Disk, FaultDisk, MemoryDisk};
use bt_engine::{Engine, StartError};
use bt_lanes::Lanes;
use bt_machine::FileReport;
use bt_meta::{Torrent, read_torrent};
use bt_rows::bytes_of;
use std::alloc::{AllocError, Global};
use std::fmt::Write;

pub type TestDisk = FaultDisk<MemoryDisk>;

pub type TestEngine = Engine<TestDisk, Lanes>;

pub fn memory_disk(alloc: Global, bytes: Vec<u8>) -> TestDisk {
    FaultDisk::new(MemoryDisk::new(alloc, bytes))
}

/// The torrent whose bytes a word spells; or it is told why there is none.
pub fn torrent_of(
    alloc: Global,
    word: &str,
    out: &mut String,
) -> Result<Option<Torrent>, AllocError> {
    match bytes_of(alloc, word)? {
        Some(text) => torrent_from(alloc, &text, out),
        None => {
            out.push_str("no bytes\n")?;
            Ok(None)
        }
    }
}

fn torrent_from(
    alloc: Global,
    text: &[u8],
    out: &mut String,
) -> Result<Option<Torrent>, AllocError> {
    match read_torrent(alloc, text) {
        Ok(torrent) => Ok(Some(torrent)),
        Err(error) => {
            writeln!(out, "refused {error}")?;
            Ok(None)
        }
    }
}

pub fn start(
    alloc: Global,
    torrent: Torrent,
    disks: Vec<TestDisk>,
) -> Result<TestEngine, StartError> {
    match Engine::start(alloc, torrent, Lanes, disks, None) {
        Ok(engine) => Ok(engine),
        Err(refused) => Err(refused.cause),
    }
}

/// Adds how far each file is, and whether all are complete.
pub fn tell_reports<D: Disk + Drop>(
    out: &mut String,
    engine: &Engine<D, Lanes>,
) -> Result<(), AllocError> {
    for file in 0..u32::MAX {
        match engine.report(file) {
            Some(report) => tell_report(out, file, &report)?,
            None => break,
        }
    }
    out.push_str(if engine.is_complete() {
        "all complete\n"
    } else {
        ""
    })
}

fn tell_report(out: &mut String, file: u32, report: &FileReport) -> Result<(), AllocError> {
    let FileReport {
        blocks,
        marked,
        waiting,
        complete,
    } = *report;
    let end = if complete { " complete" } else { "" };
    writeln!(
        out,
        "file {file} {marked} of {blocks}, {waiting} waiting{end}"
    )
}
