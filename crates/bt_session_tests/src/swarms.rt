//! Many connections at once through one engine, over a gate in memory.
ghost use Rattle.std.specs.Prelude.{◌≡◌};

use crate::device::Device;
use crate::engine::{TestDisk, tell_reports, torrent_of};
use crate::flushes::flushing_each;
use crate::gate::MemoryGate;
use crate::lists::{new_devices, set_of};
use crate::member::Member;
use crate::script::{push_rounds, script_of};
use crate::sessions::tell_written;
use crate::tale::{Tale, tell_end_code};
use bt_devices::{Alarm, Watched};
use bt_engine::Engine;
use bt_lanes::Lanes;
use bt_machine::FlushError;
use bt_meta::read_torrent;
use bt_progress::Unwatched;
use bt_rows::{RowError, Words, bytes_of, put, whole_answer};
use bt_session::Flushing;
use bt_swarm::run_swarm;
use std::alloc::{AllocError, Global};
use std::fmt::Write;

/// Devices that ring where a write fails.
type RingingDisk<'a> = Watched<'a, TestDisk, Unwatched>;

type RingingEngine<'a> = Engine<RingingDisk<'a>, Lanes>;

/// A torrent, the devices of its files that have a byte, and the connections of the next swarm.
#[derive(Drop)]
pub struct Swarms {
    /// The torrent's bytes.
    text: Vec<u8>,
    devices: Vec<Device>,
    members: Vec<Member>,
}

/// What a row says of a swarm.
#[derive(Drop)]
struct Order {
    until_complete: bool,
    flushing: Flushing,
    /// After how many rounds all end.
    rounds: u64,
    choices: Vec<u64>,
    is_brief: bool,
    /// Whether what the devices have is taken in before.
    adopts: bool,
}

impl Swarms {
    pub fn new(alloc: Global) -> Self {
        Swarms {
            text: Vec::new(alloc),
            devices: Vec::new(alloc),
            members: Vec::new(alloc),
        }
    }

    /// Adds what a row answers. What is no row says so.
    pub fn answer(&mut self, alloc: Global, row: &str, out: &mut String) -> Result<(), AllocError> {
        let (name, rest) = row.split_once(' ').unwrap_or((row, ""));
        match name {
            "bytes" | "fault" | "flip" => set_of(alloc, &mut self.devices, name, rest, out),
            "torrent" => self.begin(alloc, rest, out),
            _ => self.answer_words(alloc, row, out),
        }
    }

    /// Takes a torrent, whose devices have zeros.
    fn begin(&mut self, alloc: Global, word: &str, out: &mut String) -> Result<(), AllocError> {
        self.members.clear();
        let Some(torrent) = torrent_of(alloc, word, out)? else {
            return Ok(());
        };
        put(&mut self.devices, new_devices(alloc, &torrent)?);
        if let Some(text) = bytes_of(alloc, word)? {
            put(&mut self.text, text);
        }
        Ok(())
    }

    fn answer_words(
        &mut self,
        alloc: Global,
        row: &str,
        out: &mut String,
    ) -> Result<(), AllocError> {
        let mut words = Words::new(row);
        let answer = self.answer_of(alloc, &mut words);
        let answer = whole_answer(alloc, row, &words, answer)?;
        out.push_str(answer.as_str())?;
        // What is no row is told with no end of its line.
        let is_ended = answer.is_empty() || answer.ends_with('\n');
        out.push_str(if is_ended { "" } else { "\n" })
    }

    fn answer_of(&mut self, alloc: Global, words: &mut Words<'_>) -> Result<String, RowError> {
        match words.word() {
            "member" => self.push_member(alloc, words),
            "run" => self.run(alloc, words),
            _ => Err(RowError::Unread),
        }
    }

    /// Takes a connection of the next swarm.
    fn push_member(&mut self, alloc: Global, words: &mut Words<'_>) -> Result<String, RowError> {
        let script = script_of(alloc, words)?;
        let number = self.members.len();
        self.members.push(Member::new(alloc, number, script))?;
        Ok(String::new(alloc))
    }

    /// Runs a swarm of the connections, on a new engine, and tells of it.
    fn run(&mut self, alloc: Global, words: &mut Words<'_>) -> Result<String, RowError> {
        let order = order_of(alloc, words)?;
        let answer = run_order(alloc, &self.text, &self.devices, &self.members, &order);
        self.members.clear();
        answer
    }
}

fn order_of(alloc: Global, words: &mut Words<'_>) -> Result<Order, RowError> {
    let until_complete = match words.word() {
        "complete" => true,
        "all" => false,
        _ => return Err(RowError::Unread),
    };
    let mut order = Order {
        until_complete,
        flushing: flushing_each(words.number()?),
        rounds: words.long()?,
        choices: Vec::new(alloc),
        is_brief: false,
        adopts: false,
    };
    set_all(&mut order, words)?;
    Ok(order)
}

fn set_all(order: &mut Order, words: &mut Words<'_>) -> Result<(), RowError> {
    for _ in 0..u64::MAX {
        if words.is_at_end() {
            return Ok(());
        }
        set(order, words.word())?;
    }
    Ok(())
}

fn set(order: &mut Order, word: &str) -> Result<(), RowError> {
    match word {
        "brief" => order.is_brief = true,
        "adopt" => order.adopts = true,
        _ => match word.strip_prefix("choose=") {
            Some(rounds) => return push_rounds(&mut order.choices, rounds),
            None => return Err(RowError::Unread),
        },
    }
    Ok(())
}

fn run_order(
    alloc: Global,
    text: &[u8],
    devices: &[Device],
    members: &[Member],
    order: &Order,
) -> Result<String, RowError> {
    let alarm = Alarm::new();
    let Ok(torrent) = read_torrent(alloc, text) else {
        return Err(RowError::Failed);
    };
    let disks = disks_of(alloc, devices, &alarm)?;
    let Ok(mut engine) = Engine::start(alloc, torrent, Lanes, disks, None) else {
        return Err(RowError::Failed);
    };
    if order.adopts {
        adopt_all(&mut engine);
    }
    let tale = Tale::new(alloc, order.rounds, order.is_brief);
    let mut gate = MemoryGate::new(alloc, members, &order.choices, &tale, &alarm);
    let swarmed = swarm(alloc, &mut engine, &mut gate, order)?;
    tell_all(alloc, &engine, &tale, members, swarmed)
}

fn disks_of<'a>(
    alloc: Global,
    devices: &[Device],
    alarm: &'a Alarm,
) -> Result<Vec<RingingDisk<'a>>, AllocError> {
    let mut disks = Vec::new(alloc);
    for device in devices {
        let disk = device.disk(alloc)?;
        disks.push(Watched::with_alarm(disk, &Unwatched, None, alarm))?;
    }
    Ok(disks)
}

/// Takes in what the devices have.
fn adopt_all(engine: &mut RingingEngine<'_>) {
    for file in 0..u32::MAX {
        if engine.adopt(file).is_err() {
            return;
        }
    }
}

/// What a swarm answers. Errors: a peer is there before.
fn swarm(
    alloc: Global,
    engine: &mut RingingEngine<'_>,
    gate: &mut MemoryGate<'_>,
    order: &Order,
) -> Result<Result<(), FlushError>, RowError>
    requires { gate.old.waits ≡ 0 }
{
    if engine.peers() != 0 {
        return Err(RowError::Failed);
    }
    Ok(run_swarm(alloc, engine, gate, order.until_complete, order.flushing))
}

/// What happened, how it ended, what came of each connection, and how far each file is.
fn tell_all(
    alloc: Global,
    engine: &RingingEngine<'_>,
    tale: &Tale,
    members: &[Member],
    swarmed: Result<(), FlushError>,
) -> Result<String, RowError> {
    let mut out = String::new(alloc);
    tale.tell(&mut out)?;
    match swarmed {
        Ok(()) => out.push_str("done")?,
        Err(error) => write!(out, "flush refused {error}")?,
    }
    writeln!(out, " in {} rounds, {} peers", tale.round(), engine.peers())?;
    tell_members(alloc, &mut out, members)?;
    tell_reports(&mut out, engine)?;
    Ok(out)
}

fn tell_members(alloc: Global, out: &mut String, members: &[Member]) -> Result<(), RowError> {
    for member in members {
        tell_member(alloc, out, member)?;
    }
    Ok(())
}

/// How it ended with a connection, how many bytes it gave and took, and which it got.
fn tell_member(alloc: Global, out: &mut String, member: &Member) -> Result<(), RowError> {
    write!(out, "{} ", member.number())?;
    match member.end() {
        Some(end) => tell_end_code(out, end)?,
        None => return Ok(out.push_str("is not heard\n")?),
    }
    write!(out, ", gave {}, took {} of ", member.gave(), member.took())?;
    let Ok(guard) = member.got().try_borrow() else {
        return Err(RowError::Failed);
    };
    Ok(tell_written(alloc, out, &guard)?)
}
