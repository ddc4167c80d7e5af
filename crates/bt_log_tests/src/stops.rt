//! What a stop leaves of devices and of a log, and what is marked where an engine begins over them again.

use crate::device::TestDisk;
use crate::hints::tell_refusal;
use crate::peers::tell_asked;
use crate::stage::{Source, TestEngine};
use bt_disk::Loss;
use bt_engine::{ReopenError, reopen};
use bt_lanes::Lanes;
use bt_machine::StartError;
use bt_rows::{RowError, Words, tell};
use std::alloc::{AllocError, Global};
use std::fmt::Write;

/// What becomes of what was written since the last sync.
const LOSSES: [Loss; 4] = [
    Loss::Kept,
    Loss::Filled(0),
    Loss::Filled(77),
    Loss::Filled(255),
];

/// Where the devices are that are stopped.
#[derive(Clone, Copy)]
pub enum Stopped<'a> {
    Engine(&'a TestEngine),
    /// Nothing was started over them; and that of the log.
    Devices(&'a [TestDisk], &'a TestDisk),
}

impl<'a> Stopped<'a> {
    /// No file and no device has this number or a greater one.
    fn count(self) -> usize {
        match self {
            Stopped::Engine(engine) => engine.torrent().files().len(),
            Stopped::Devices(disks, _) => disks.len(),
        }
    }

    fn disk(self, number: usize) -> Option<&'a TestDisk> {
        match self {
            Stopped::Engine(engine) => match u32::try_from(number) {
                Ok(number) => engine.disk(number),
                Err(_) => None,
            },
            Stopped::Devices(disks, _) => disks.get(number),
        }
    }

    pub fn log(self) -> Option<&'a TestDisk> {
        match self {
            Stopped::Engine(engine) => engine.log_disk(),
            Stopped::Devices(_, log) => Some(log),
        }
    }
}

/// What is marked where the log is opened and an engine starts over what a stop leaves: a line for each loss of the
/// files' devices, and in it a word for each loss of the log's.
pub fn stop_row(
    alloc: Global,
    source: &Source,
    stopped: Stopped<'_>,
    out: &mut String,
) -> Result<(), RowError> {
    let mut between = "";
    for loss in &LOSSES {
        tell(out, between)?;
        tell_starts(alloc, source, stopped, *loss, out)?;
        between = "\n";
    }
    Ok(())
}

fn tell_starts(
    alloc: Global,
    source: &Source,
    stopped: Stopped<'_>,
    loss: Loss,
    out: &mut String,
) -> Result<(), RowError> {
    let Some(log) = stopped.log() else {
        return Err(RowError::Unread);
    };
    let mut between = "";
    for loss_of_log in &LOSSES {
        tell(out, between)?;
        let disks = images_of(alloc, stopped, loss, 0)?;
        tell_start(
            alloc,
            source,
            disks,
            log.image(alloc, *loss_of_log, 0)?,
            out,
        )?;
        between = ", ";
    }
    Ok(())
}

/// What a crash leaves of the devices of files. Each stops at the call of this number; at none, where it is 0.
pub fn images_of(
    alloc: Global,
    stopped: Stopped<'_>,
    loss: Loss,
    call: u64,
) -> Result<Vec<TestDisk>, AllocError> {
    let mut images = Vec::new(alloc);
    for number in 0..stopped.count() {
        if let Some(disk) = stopped.disk(number) {
            images.push(disk.image(alloc, loss, call)?)?;
        }
    }
    Ok(images)
}

/// The loss that a word names: `kept`, or the byte that fills what is lost.
pub fn loss_of(words: &mut Words) -> Result<Loss, RowError> {
    match words.word() {
        "kept" => Ok(Loss::Kept),
        "0" => Ok(Loss::Filled(0)),
        "77" => Ok(Loss::Filled(77)),
        "255" => Ok(Loss::Filled(255)),
        _ => Err(RowError::Unread),
    }
}

/// What is marked over these, or why the log is refused.
fn tell_start(
    alloc: Global,
    source: &Source,
    disks: Vec<TestDisk>,
    log: TestDisk,
    out: &mut String,
) -> Result<(), RowError> {
    let torrent = source.torrent(alloc)?;
    match reopen(alloc, torrent, Lanes, disks, log) {
        Ok(engine) => tell_marked(alloc, engine, out),
        Err(refused) => tell_not_reopened(out, refused.cause),
    }
}

/// How many blocks of the first file are marked, and which of its first piece are not.
fn tell_marked(alloc: Global, engine: TestEngine, out: &mut String) -> Result<(), RowError> {
    let mut engine = engine;
    let Some(report) = engine.report(0) else {
        return Err(RowError::Unread);
    };
    write!(out, "{}", report.marked)?;
    tell_asked(alloc, &mut engine, out)
}

/// Why no engine begins.
pub fn tell_not_reopened(out: &mut String, cause: ReopenError) -> Result<(), RowError> {
    match cause {
        ReopenError::Log(cause) => tell_refusal(out, cause),
        ReopenError::Start(StartError::OutOfMemory) => Err(RowError::Memory(AllocError)),
        ReopenError::Start(cause) => Ok(write!(out, "refused {cause}")?),
    }
}
