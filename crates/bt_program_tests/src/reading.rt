//! Calls of `bt_check` on readers and devices that fail, or give little.

use crate::streams::{NEVER, Slow};
use bt_check::{
    BUFFER_LEN, Fault, Finding, PieceSize, SharedTrees, Source, digest_reader, load, read_text,
};
use bt_disk::{DeviceFault, Disk, FaultDisk, MemoryDisk};
use bt_meta::{Torrent, layers_are_of_trees};
use bt_tree::Hash32;
use std::alloc::Global;
use std::fs;
use std::io::{self, ErrorKind, Read, Write};

/// Prints what standard input has, or the fault: it gives as many bytes at a time as the first word says, and fails at
/// the read that the second counts, if it is a number. Gives the status of the fault.
pub fn text(rt: &HostRuntime, words: &[String]) -> io::Result<u8> {
    let [most, fails_at] = words else {
        return Err(io::Error::from(ErrorKind::InvalidInput));
    };
    let input = input_of(rt)?;
    let most = most.parse::<usize>().unwrap_or(0);
    let mut reader = Slow::new(&input, most, read_in(fails_at.as_str()));
    match text_of(rt.alloc(), &mut reader) {
        Ok(text) => printed(rt, &text),
        Err(fault) => told(rt, fault),
    }
}

/// The number of a read.
fn read_in(word: &str) -> u32 {
    word.parse::<u32>().unwrap_or(NEVER)
}

/// What standard input has.
fn input_of(rt: &HostRuntime) -> io::Result<Vec<u8>> {
    let mut input = Vec::new(rt.alloc());
    rt.stdin().read_to_end(&mut input)?;
    Ok(input)
}

fn text_of(alloc: Global, reader: &mut Slow<'_>) -> Result<Vec<u8>, Fault> {
    let mut buffer = [0; BUFFER_LEN];
    read_text(alloc, reader, &mut buffer)
}

fn printed(rt: &HostRuntime, bytes: &[u8]) -> io::Result<u8> {
    rt.stdout().write_all(bytes)?;
    Ok(0)
}

fn told(rt: &HostRuntime, fault: Fault) -> io::Result<u8> {
    eprintln!(rt; "{fault}")?;
    Ok(fault.status())
}

/// How many bytes are given at a time to be digested.
const MOST: usize = 12288;

/// Prints the root of what standard input has as a file of the length that the first word says, cut into pieces of a block, or the fault. A read
/// fails as the second word says.
pub fn digest(rt: &HostRuntime, words: &[String]) -> io::Result<u8> {
    let [length, fails_at] = words else {
        return Err(io::Error::from(ErrorKind::InvalidInput));
    };
    let input = input_of(rt)?;
    let mut reader = Slow::new(&input, MOST, read_in(fails_at.as_str()));
    match root_of(rt.alloc(), &mut reader, length.parse::<u64>().unwrap_or(0)) {
        Ok(root) => print_root(rt, &root),
        Err(fault) => told(rt, fault),
    }
}

fn root_of(alloc: Global, reader: &mut Slow<'_>, length: u64) -> Result<Hash32, Fault> {
    let mut buffer = [0; BUFFER_LEN];
    let size = PieceSize::new(16384).ok_or(Fault::Words)?;
    let digests = digest_reader(alloc, reader, length, size, &mut buffer)?;
    Ok(digests.root)
}

fn print_root(rt: &HostRuntime, root: &Hash32) -> io::Result<u8> {
    println!(rt; "{}", hex::encode(rt.alloc(), root)?)?;
    Ok(0)
}

/// Prints what is found of the bytes of the file that the second word names, as the one file of the torrent, or the info dictionary alone, that the
/// first names. A call on its device fails as the third word says.
pub fn entry(rt: &HostRuntime, is_info: bool, words: &[String]) -> io::Result<u8> {
    let [torrent, data, fails_at] = words else {
        return Err(io::Error::from(ErrorKind::InvalidInput));
    };
    let source = Source {
        path: torrent.as_str(),
        is_info,
    };
    match found_in(
        rt,
        source,
        data.as_str(),
        fails_at.parse::<u32>().unwrap_or(0),
    ) {
        Ok(finding) => show(rt, finding),
        Err(fault) => told(rt, fault),
    }
}

fn found_in(
    rt: &HostRuntime,
    source: Source<'_>,
    data: &str,
    fails_at: u32,
) -> Result<Finding, Fault> {
    let mut buffer = [0; BUFFER_LEN];
    let torrent = load(rt, source, &mut buffer)?;
    let disk = disk_of(rt, data, fails_at)?;
    found_on(rt.alloc(), &torrent, disk)
}

/// A device that has the bytes of a file, and of which the call of this number fails, from 1 on.
fn disk_of(rt: &HostRuntime, data: &str, fails_at: u32) -> Result<FaultDisk<MemoryDisk>, Fault> {
    let Ok(bytes) = fs::read(rt, data) else {
        return Err(Fault::Device);
    };
    let disk = FaultDisk::new(MemoryDisk::new(rt.alloc(), bytes));
    if fails_at == 0 {
        return Ok(disk);
    }
    Ok(disk.failing_once(fails_at as u64))
}

/// What is found of a device as the first file of a torrent, as the program finds it.
fn found_on<D: Disk + Drop>(alloc: Global, torrent: &Torrent, disk: D) -> Result<Finding, Fault> {
    let size = PieceSize::new(torrent.piece_length()).ok_or(Fault::Words)?;
    let entries = torrent.files();
    let entry = entries.first().ok_or(Fault::Words)?;
    // The layers of a torrent that was read are those of its files.
    layers_are_of_trees();
    let mut trees = SharedTrees::new(alloc, entries)?;
    Ok(trees.check(alloc, Some(disk), entry, size)?)
}

fn show(rt: &HostRuntime, finding: Finding) -> io::Result<u8> {
    println!(rt; "{} of {} blocks", finding.marked, finding.blocks)?;
    if finding.longer {
        println!(rt; "longer")?;
    }
    if finding.faulty {
        println!(rt; "{DeviceFault}")?;
    }
    Ok(0)
}
