//! What the rows so far have made, and the first word of a row.

use crate::again::again_row;
use crate::bytes::tell_bytes;
use crate::device::{Defect, TestDisk};
use crate::events::{adopt_row, flush_row, peers_row, report_row, restart_row};
use crate::fill::{append_times, fill};
use crate::hints::{tell_format, tell_log, tell_refusal};
use crate::peers::{connect_row, hashes_row, lost_row, piece_row};
use crate::stops::{Stopped, images_of, loss_of, stop_row, tell_not_reopened};
use bt_engine::{Engine, ReopenRefused, reopen};
use bt_lanes::Lanes;
use bt_machine::{StartError, StartRefused};
use bt_meta::{MetaError, Torrent, read_info, read_torrent};
use bt_resume::{Hint, LogError, Refused, ResumeLog};
use bt_rows::{RowError, Rows, Words, put, tell, whole_answer};
use bt_tree::Hash32;
use std::alloc::{AllocError, Global};
use std::fmt::Write;
use std::mem;

pub type TestEngine = Engine<TestDisk, Lanes>;

type TestRefusal = StartRefused<TestDisk, ResumeLog<TestDisk>>;

/// No torrent of rows has it.
const OTHER_INFOHASH: Hash32 = [0; 32];

/// The text of a torrent, or of its info dictionary alone.
#[derive(Drop)]
pub struct Source {
    is_whole: bool,
    text: Vec<u8>,
}

impl Source {
    fn read(&self, alloc: Global) -> Result<Torrent, MetaError> {
        if self.is_whole {
            read_torrent(alloc, &self.text)
        } else {
            read_info(alloc, &self.text)
        }
    }

    /// The torrent once more.
    pub fn torrent(&self, alloc: Global) -> Result<Torrent, RowError> {
        match self.read(alloc) {
            Ok(torrent) => Ok(torrent),
            Err(MetaError::OutOfMemory) => Err(RowError::Memory(AllocError)),
            Err(_) => Err(RowError::Unread),
        }
    }
}

/// A torrent, the devices that are to be its files, the device of a log, and what was started over them.
#[derive(Drop)]
pub struct Stage {
    alloc: Global,
    source: Source,
    torrent: Option<Torrent>,
    infohash: Hash32,
    disks: Vec<TestDisk>,
    log: Option<TestDisk>,
    /// How many bytes of those that a log may have are left, where it is filled before the start; else 0.
    left: u64,
    /// What is appended to it between its opening and the start, and not flushed.
    hint: Option<Hint>,
    engine: Option<TestEngine>,
}

impl Stage {
    pub fn new(alloc: Global) -> Self {
        Stage {
            alloc,
            source: Source {
                is_whole: true,
                text: Vec::new(alloc),
            },
            torrent: None,
            infohash: [0; 32],
            disks: Vec::new(alloc),
            log: None,
            left: 0,
            hint: None,
            engine: None,
        }
    }

    fn row_answer(&mut self, words: &mut Words) -> Result<String, RowError> {
        let mut out = String::new(self.alloc);
        self.row(words, &mut out)?;
        Ok(out)
    }

    fn row(&mut self, words: &mut Words, out: &mut String) -> Result<(), RowError> {
        match words.word() {
            "torrent" => self.torrent_row(true, words, out),
            "info" => self.torrent_row(false, words, out),
            "device" => self.device_row(words, out),
            "log" => self.log_row(words, out),
            "start" => self.start_row(words, out),
            "reopen" => self.reopen_row(out),
            "stop" => self.stop_row(out),
            "life" => self.life_row(words, out),
            "calls" => self.calls_row(words, out),
            name => self.engine_row(name, words, out),
        }
    }

    /// Reads a torrent, or the info dictionary of one. All that was there before is gone.
    fn torrent_row(
        &mut self,
        is_whole: bool,
        words: &mut Words,
        out: &mut String,
    ) -> Result<(), RowError> {
        let text = words.bytes(self.alloc)?;
        let source = Source { is_whole, text };
        match source.read(self.alloc) {
            Ok(torrent) => self.put_torrent(source, torrent, out),
            Err(MetaError::OutOfMemory) => Err(RowError::Memory(AllocError)),
            Err(error) => Ok(write!(out, "refused {error}")?),
        }
    }

    fn put_torrent(
        &mut self,
        source: Source,
        torrent: Torrent,
        out: &mut String,
    ) -> Result<(), RowError> {
        let count = torrent.files().len();
        self.infohash = torrent.infohash();
        self.left = 0;
        put(&mut self.hint, None);
        put(&mut self.source, source);
        put(&mut self.torrent, Some(torrent));
        put(&mut self.disks, Vec::new(self.alloc));
        put(&mut self.log, None);
        put(&mut self.engine, None);
        Ok(write!(out, "files {count}")?)
    }

    /// The device of the next file that has a byte.
    fn device_row(&mut self, words: &mut Words, out: &mut String) -> Result<(), RowError> {
        let kind = words.word();
        let disk = device_of(self.alloc, kind, words)?;
        self.disks.push(disk)?;
        tell(out, "a device")
    }

    /// The device of the log, or what it has.
    fn log_row(&mut self, words: &mut Words, out: &mut String) -> Result<(), RowError> {
        match words.word() {
            "bytes" => self.log_bytes(out),
            "calls" => tell_calls(out, self.log_disk()?),
            "hints" => tell_log(self.alloc, self.log_disk()?, self.infohash, out),
            "format" => tell_format(self.alloc, self.log_disk()?, self.infohash, out),
            "left" => {
                self.left = words.long()?;
                tell(out, "to be filled")
            }
            "marks" => {
                put(&mut self.hint, Some(run_of(words)?));
                tell(out, "to be appended")
            }
            kind => {
                let disk = device_of(self.alloc, kind, words)?;
                put(&mut self.log, Some(disk));
                tell(out, "a device")
            }
        }
    }

    fn log_bytes(&self, out: &mut String) -> Result<(), RowError> {
        match self.log_disk()?.kept_len() {
            Some(len) => Ok(write!(out, "{len} bytes that are not kept")?),
            None => tell_bytes(self.alloc, out, self.log_disk()?.bytes()),
        }
    }

    /// The device of the log, also where it was refused.
    fn log_disk(&self) -> Result<&TestDisk, RowError> {
        match &self.engine {
            Some(engine) => engine.log_disk().ok_or(RowError::Unread),
            None => self.log.as_ref().ok_or(RowError::Unread),
        }
    }

    /// The calls of the device of a file, or, where nothing is started, of one of the devices.
    fn calls_row(&self, words: &mut Words, out: &mut String) -> Result<(), RowError> {
        let number = words.number()?;
        let disk = match &self.engine {
            Some(engine) => engine.disk(number),
            None => self.disks.as_slice().get(number as usize),
        };
        tell_calls(out, disk.ok_or(RowError::Unread)?)
    }

    /// Opens the log of the torrent, or of another one, and starts over the devices. Either is asked once more where
    /// memory is refused.
    fn start_row(&mut self, words: &mut Words, out: &mut String) -> Result<(), RowError> {
        let infohash = match words.word() {
            "" => self.infohash,
            "other" => OTHER_INFOHASH,
            _ => return Err(RowError::Unread),
        };
        let Some(disk) = self.log.take() else {
            return Err(RowError::Unread);
        };
        match opened(self.alloc, disk, infohash) {
            Ok(log) => self.start(log, out),
            Err(refused) => self.put_back(refused, out),
        }
    }

    /// The log is refused, and its device is back.
    fn put_back(
        &mut self,
        refused: Refused<TestDisk, LogError>,
        out: &mut String,
    ) -> Result<(), RowError> {
        let Refused { disk, cause } = refused;
        put(&mut self.log, Some(disk));
        tell_refusal(out, cause)
    }

    fn start(&mut self, log: ResumeLog<TestDisk>, out: &mut String) -> Result<(), RowError> {
        let mut log = log;
        if self.left > 0 && !fill(self.alloc, &mut log, self.left)? {
            return tell(out, "not filled");
        }
        if let Some(hint) = &self.hint
            && !append_times(&mut log, hint, 1)
        {
            return tell(out, "not appended");
        }
        let Some(torrent) = self.torrent.take() else {
            return Err(RowError::Unread);
        };
        let disks = mem::replace(&mut self.disks, Vec::new(self.alloc));
        match started(self.alloc, &self.source, torrent, disks, log) {
            Ok(engine) => {
                put(&mut self.engine, Some(engine));
                tell(out, "started")
            }
            Err(refused) => self.put_all_back(refused, out),
        }
    }

    /// Nothing is started, and the devices are back.
    fn put_all_back(&mut self, refused: TestRefusal, out: &mut String) -> Result<(), RowError> {
        let StartRefused { disks, log, cause } = refused;
        put(&mut self.disks, disks);
        put(&mut self.log, log.map(|log| log.into_disk()));
        if cause == StartError::OutOfMemory {
            return Err(RowError::Memory(AllocError));
        }
        Ok(write!(out, "refused {cause}")?)
    }

    /// Opens the log of the torrent, and starts over the devices, in one call.
    fn reopen_row(&mut self, out: &mut String) -> Result<(), RowError> {
        let torrent = self.source.torrent(self.alloc)?;
        let Some(log) = self.log.take() else {
            return Err(RowError::Unread);
        };
        let disks = mem::replace(&mut self.disks, Vec::new(self.alloc));
        match reopen(self.alloc, torrent, Lanes, disks, log) {
            Ok(engine) => {
                put(&mut self.engine, Some(engine));
                tell(out, "started")
            }
            Err(refused) => self.put_devices_back(refused, out),
        }
    }

    /// Nothing is started, and the devices are back.
    fn put_devices_back(
        &mut self,
        refused: ReopenRefused<TestDisk>,
        out: &mut String,
    ) -> Result<(), RowError> {
        let ReopenRefused { disks, log, cause } = refused;
        put(&mut self.disks, disks);
        put(&mut self.log, Some(log));
        tell_not_reopened(out, cause)
    }

    /// What a stop leaves of the devices, and what is marked over it.
    fn stop_row(&self, out: &mut String) -> Result<(), RowError> {
        stop_row(self.alloc, &self.source, self.stopped()?, out)
    }

    /// The devices that are there, of an engine or of none.
    fn stopped(&self) -> Result<Stopped<'_>, RowError> {
        if let Some(engine) = &self.engine {
            return Ok(Stopped::Engine(engine));
        }
        match &self.log {
            Some(log) => Ok(Stopped::Devices(self.disks.as_slice(), log)),
            None => Err(RowError::Unread),
        }
    }

    /// All stops: what that leaves, by a loss, are the devices of the next life, of which each of a file and that of
    /// the log stop at a call of their own.
    fn life_row(&mut self, words: &mut Words, out: &mut String) -> Result<(), RowError> {
        let loss = loss_of(words)?;
        let call = words.long()?;
        let log_call = words.long()?;
        let stopped = self.stopped()?;
        let disks = images_of(self.alloc, stopped, loss, call)?;
        let Some(log) = stopped.log() else {
            return Err(RowError::Unread);
        };
        let log = log.image(self.alloc, loss, log_call)?;
        put(&mut self.disks, disks);
        put(&mut self.log, Some(log));
        put(&mut self.engine, None);
        tell(out, "stopped")
    }

    /// An event, or what is told of the engine.
    fn engine_row(
        &mut self,
        name: &str,
        words: &mut Words,
        out: &mut String,
    ) -> Result<(), RowError> {
        let Some(engine) = &mut self.engine else {
            return Err(RowError::Unread);
        };
        match name {
            "connect" => connect_row(self.alloc, engine, out),
            "hashes" => hashes_row(self.alloc, engine, words, out),
            "piece" => piece_row(self.alloc, engine, words, out),
            "lost" => lost_row(engine, words, out),
            "peers" => peers_row(engine, out),
            "adopt" => adopt_row(engine, words, out),
            "flush" => flush_row(engine, out),
            "restart" => restart_row(engine, out),
            "report" => report_row(engine, words, out),
            "again" => again_row(self.alloc, engine, words, out),
            _ => Err(RowError::Unread),
        }
    }
}

impl Rows for Stage {
    fn answer(&mut self, alloc: Global, row: &str) -> Result<String, AllocError> {
        let mut words = Words::new(row);
        let answer = self.row_answer(&mut words);
        whole_answer(alloc, row, &words, answer)
    }
}

/// A run of marks: its file, the first block and how many.
fn run_of(words: &mut Words) -> Result<Hint, RowError> {
    Ok(Hint::Marks {
        file: words.number()?,
        first: words.number()?,
        count: words.number()?,
    })
}

/// A device: `zeros`, and how many; or its defect, the call of it, and its bytes.
fn device_of(alloc: Global, kind: &str, words: &mut Words) -> Result<TestDisk, RowError> {
    let number = words.long()?;
    let defect = match kind {
        "zeros" => return Ok(TestDisk::of_zeros(number)),
        "memory" => Defect::Once,
        "stopping" => Defect::Stop,
        "flipping" => Defect::Flip(words.long()?),
        _ => return Err(RowError::Unread),
    };
    let bytes = words.bytes(alloc)?;
    Ok(TestDisk::in_memory(alloc, bytes, defect, number))
}

fn opened(
    alloc: Global,
    disk: TestDisk,
    infohash: Hash32,
) -> Result<ResumeLog<TestDisk>, Refused<TestDisk, LogError>> {
    match ResumeLog::attach(alloc, disk, infohash) {
        Ok(log) => Ok(log),
        Err(refused) => opened_again(alloc, refused, infohash),
    }
}

fn opened_again(
    alloc: Global,
    refused: Refused<TestDisk, LogError>,
    infohash: Hash32,
) -> Result<ResumeLog<TestDisk>, Refused<TestDisk, LogError>> {
    if refused.cause != LogError::OutOfMemory {
        return Err(refused);
    }
    let Refused { disk, cause: _ } = refused;
    ResumeLog::attach(alloc, disk, infohash)
}

fn started(
    alloc: Global,
    source: &Source,
    torrent: Torrent,
    disks: Vec<TestDisk>,
    log: ResumeLog<TestDisk>,
) -> Result<TestEngine, TestRefusal> {
    match Engine::start(alloc, torrent, Lanes, disks, Some(log)) {
        Ok(engine) => Ok(engine),
        Err(refused) => started_again(alloc, source, refused),
    }
}

fn started_again(
    alloc: Global,
    source: &Source,
    refused: TestRefusal,
) -> Result<TestEngine, TestRefusal> {
    if refused.cause != StartError::OutOfMemory {
        return Err(refused);
    }
    let Ok(torrent) = source.torrent(alloc) else {
        return Err(refused);
    };
    let StartRefused { disks, log, .. } = refused;
    Engine::start(alloc, torrent, Lanes, disks, log)
}

fn tell_calls(out: &mut String, disk: &TestDisk) -> Result<(), RowError> {
    let calls = disk.calls();
    Ok(write!(
        out,
        "{} reads, {} writes, {} syncs",
        calls.reads, calls.writes, calls.syncs
    )?)
}
