//! A store of a torrent's two files, in memory: the one that is there is served, and of the other no wrong block is taken.
#![tactic(auto)]

ghost use Rattle.std.specs.Prelude.{[], ◌≡◌, OnOk};
ghost use Rattle.burdockpump.specs.Sound.{IsSound};
ghost use Rattle.burdockpump.specs.Standing.{Stands};

use anyhow::{Result, bail};
use burdockpump::{
    Disk, Engine, Lanes, MemoryDisk, NodeHash, SessionEnd, Torrent, read_torrent, run_session,
};
use std::alloc::{AllocError, Global};
use std::io::{self, Read};

/// The engine of two devices in memory.
type Store = Engine<MemoryDisk, Lanes>;

/// The next line of the input: bytes in hexadecimal.
fn read_bytes(rt: &HostRuntime) -> Result<Vec<u8>> {
    let mut line = String::new(rt.alloc());
    rt.read_line(&mut line)?;
    Ok(hex::decode(rt.alloc(), line.trim_end())?)
}

/// The torrent whose text is the next line.
fn torrent_of(rt: &HostRuntime) -> Result<Torrent> {
    let text = read_bytes(rt)?;
    Ok(read_torrent(rt.alloc(), &text)?)
}

/// A device that has the bytes of the first file, and one that has none of the second.
fn disks_of(alloc: Global) -> Result<Vec<MemoryDisk>, AllocError> {
    let mut disks = Vec::new(alloc);
    let bytes = Vec::from_slice(alloc, b"one\n")?;
    disks.push(MemoryDisk::new(alloc, bytes))?;
    disks.push(MemoryDisk::new(alloc, Vec::new(alloc)))?;
    Ok(disks)
}

/// An engine of a torrent, which has taken in nothing yet.
fn start(alloc: Global, torrent: Torrent, disks: Vec<MemoryDisk>) -> Result<Store> {
    match Engine::start(alloc, torrent, Lanes, disks, None) {
        Ok(store) => Ok(store),
        Err(_) => bail!("no engine is started"),
    }
}

/// The engine of the torrent that the input has first.
fn load(rt: &HostRuntime) -> Result<Store> {
    let disks = disks_of(rt.alloc())?;
    let torrent = torrent_of(rt)?;
    start(rt.alloc(), torrent, disks)
}

/// Takes in what the devices of both files have.
fn adopt_both(store: &mut Store) -> Result<()> {
    for file in 0..2 {
        store.adopt(file)?;
    }
    Ok(())
}

/// A session with a peer that sends these bytes, in two parts: how it ended. What is sent to the peer is put after `sent`.
/// Whatever the bytes are, the marked blocks of honest devices are right, and stay marked.
fn meet<D: Disk + Drop, H: NodeHash>(
    alloc: Global,
    store: &mut Engine<D, H>,
    first: &[u8],
    then: &[u8],
    sent: &mut Vec<u8>,
) -> Result<SessionEnd>
    ensures sound { IsSound D.conduct H.digest store.new.state store.new.disks }
    ensures stands { OnOk result (Stands D.conduct store.old store.new) }
    ensures gone { OnOk result (store.new.state.peers ≡ []) }
{
    store.keeps_laws();
    if store.peers() != 0 {
        bail!("a peer is connected");
    }
    let end = run_session(alloc, store, &mut first.chain(then), sent, true, 100);
    store.keeps_laws();
    Ok(end?)
}

/// Prints how a session ended, whether the first file was sent, and how far each file is.
fn tell(rt: &HostRuntime, store: &Store, end: SessionEnd, sent: &[u8]) -> io::Result<()> {
    println!(rt;
        "{end:?}, was sent the first file: {}",
        sent.ends_with(b"one\n")
    )?;
    println!(rt; "{:?}", store.report(0))?;
    println!(rt; "{:?}", store.report(1))
}

/// Meets the peer of the next two lines.
fn meet_next(rt: &HostRuntime, store: &mut Store) -> Result<()> {
    let first = read_bytes(rt)?;
    let then = read_bytes(rt)?;
    let mut sent = Vec::new(rt.alloc());
    let end = meet(rt.alloc(), store, &first, &then, &mut sent)?;
    Ok(tell(rt, store, end, &sent)?)
}

/// Takes in what the devices have, and meets both peers.
fn serve_and_fetch(rt: &HostRuntime, store: &mut Store) -> Result<()> {
    adopt_both(store)?;
    for _ in 0..2 {
        meet_next(rt, store)?;
    }
    Ok(())
}

fn main(rt: HostRuntime) -> Result<()> {
    let mut store = load(&rt)?;
    let done = serve_and_fetch(&rt, &mut store);
    drop(store);
    done
}
