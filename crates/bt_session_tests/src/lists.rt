//! Lists of events: the engine that they happen to, and its torrent and devices before it begins.

use crate::buffer::buffer_row;
use crate::device::Device;
use crate::engine::{TestDisk, start, torrent_of};
use crate::event::{byte_events, event_of};
use crate::run::Run;
use bt_machine::Event;
use bt_meta::{FileEntry, Torrent};
use bt_rows::put;
use std::alloc::{AllocError, Global};
use std::fmt::Write;
use std::mem;

/// A torrent whose engine has not begun, and the devices of its files that have a byte.
#[derive(Drop)]
pub struct Beginning {
    torrent: Torrent,
    devices: Vec<Device>,
}

/// What the rows so far have made.
#[derive(Drop)]
pub enum Lists {
    Empty,
    Beginning(Beginning),
    Running(Run),
}

impl Lists {
    /// Takes a row, and adds what is answered by then: events are run as one list when a row comes that is none. What is no row
    /// says so.
    pub fn answer(&mut self, alloc: Global, row: &str, out: &mut String) -> Result<(), AllocError> {
        let (name, rest) = row.split_once(' ').unwrap_or((row, ""));
        match event_of(alloc, name, rest)? {
            Some(event) => self.take_event(alloc, event, out),
            None => {
                self.finish(alloc, out)?;
                self.other_row(alloc, name, rest, out)
            }
        }
    }

    /// Runs the events that have not run, and adds what they answer.
    pub fn finish(&mut self, alloc: Global, out: &mut String) -> Result<(), AllocError> {
        match self {
            Lists::Running(run) => run.finish(alloc, out),
            _ => Ok(()),
        }
    }

    fn take_event(
        &mut self,
        alloc: Global,
        event: Event,
        out: &mut String,
    ) -> Result<(), AllocError> {
        self.begin(alloc)?;
        match self {
            Lists::Running(run) => run.push(event),
            _ => out.push_str("no engine\n"),
        }
    }

    /// A row that is no event.
    fn other_row(
        &mut self,
        alloc: Global,
        name: &str,
        rest: &str,
        out: &mut String,
    ) -> Result<(), AllocError> {
        match name {
            "torrent" => self.take_torrent(alloc, rest, out),
            "bytes" | "fault" | "flip" => self.set_device(alloc, name, rest, out),
            _ => self.tell(alloc, name, rest, out),
        }
    }

    fn take_torrent(
        &mut self,
        alloc: Global,
        word: &str,
        out: &mut String,
    ) -> Result<(), AllocError> {
        put(self, Lists::Empty);
        match torrent_of(alloc, word, out)? {
            Some(torrent) => self.put_torrent(alloc, torrent),
            None => Ok(()),
        }
    }

    fn put_torrent(&mut self, alloc: Global, torrent: Torrent) -> Result<(), AllocError> {
        let devices = new_devices(alloc, &torrent)?;
        put(self, Lists::Beginning(Beginning { torrent, devices }));
        Ok(())
    }

    fn set_device(
        &mut self,
        alloc: Global,
        name: &str,
        rest: &str,
        out: &mut String,
    ) -> Result<(), AllocError> {
        match self {
            Lists::Beginning(beginning) => set_of(alloc, &mut beginning.devices, name, rest, out),
            _ => out.push_str("no torrent that has not begun\n"),
        }
    }

    /// What is asked of an engine, and bytes that come one by one.
    fn tell(
        &mut self,
        alloc: Global,
        name: &str,
        rest: &str,
        out: &mut String,
    ) -> Result<(), AllocError> {
        self.begin(alloc)?;
        match self {
            Lists::Running(run) => tell_of(alloc, run, name, rest, out),
            _ => out.push_str("no engine\n"),
        }
    }

    /// Starts the engine, where a torrent waits for it.
    fn begin(&mut self, alloc: Global) -> Result<(), AllocError> {
        let lists = match mem::replace(self, Lists::Empty) {
            Lists::Beginning(beginning) => started(alloc, beginning)?,
            lists => lists,
        };
        put(self, lists);
        Ok(())
    }
}

/// A setting of the device of this number.
pub fn set_of(
    alloc: Global,
    devices: &mut [Device],
    name: &str,
    rest: &str,
    out: &mut String,
) -> Result<(), AllocError> {
    let (number, words) = rest.split_once(' ').unwrap_or((rest, ""));
    let index = number.parse::<usize>().unwrap_or(usize::MAX);
    let is_set = match devices.get_mut(index) {
        Some(device) => device.set(alloc, name, words)?,
        None => false,
    };
    out.push_str(if is_set { "" } else { "no such setting\n" })
}

fn tell_of(
    alloc: Global,
    run: &mut Run,
    name: &str,
    rest: &str,
    out: &mut String,
) -> Result<(), AllocError> {
    match name {
        "report" => run.tell_reports(out),
        "peers" => run.tell_peers(out),
        "each" => each_row(alloc, run, rest, out),
        _ => call_of(alloc, run, name, rest, out),
    }
}

/// What is no event of a list. One match for all rows costs more proof.
fn call_of(
    alloc: Global,
    run: &mut Run,
    name: &str,
    rest: &str,
    out: &mut String,
) -> Result<(), AllocError> {
    match name {
        "buffer" => buffer_row(alloc, &mut run.engine, rest, out),
        "plain" => {
            run.be_plain();
            Ok(())
        }
        _ => writeln!(out, "no line {name}"),
    }
}

fn each_row(alloc: Global, run: &mut Run, rest: &str, out: &mut String) -> Result<(), AllocError> {
    match byte_events(alloc, rest)? {
        Some(events) => {
            push_all(run, events)?;
            run.finish_bytes(alloc, out)
        }
        None => out.push_str("no bytes\n"),
    }
}

fn push_all(run: &mut Run, events: Vec<Event>) -> Result<(), AllocError> {
    for event in events {
        run.push(event)?;
    }
    Ok(())
}

fn started(alloc: Global, beginning: Beginning) -> Result<Lists, AllocError> {
    let Beginning { torrent, devices } = beginning;
    let disks = disks_of(alloc, devices)?;
    match start(alloc, torrent, disks) {
        Ok(engine) => Ok(Lists::Running(Run::new(alloc, engine))),
        Err(_) => Ok(Lists::Empty),
    }
}

fn disks_of(alloc: Global, devices: Vec<Device>) -> Result<Vec<TestDisk>, AllocError> {
    let mut disks = Vec::new(alloc);
    for device in devices {
        disks.push(device.into_disk(alloc))?;
    }
    Ok(disks)
}

/// A device of zeros for each file that has a byte.
pub fn new_devices(alloc: Global, torrent: &Torrent) -> Result<Vec<Device>, AllocError> {
    let mut devices = Vec::new(alloc);
    for file in torrent.files() {
        push_device(alloc, &mut devices, file)?;
    }
    Ok(devices)
}

fn push_device(
    alloc: Global,
    devices: &mut Vec<Device>,
    file: &FileEntry,
) -> Result<(), AllocError> {
    if file.length > 0 {
        devices.push(Device::of_zeros(alloc, file.length as usize)?)?;
    }
    Ok(())
}
