//! A file in memory is made into a torrent and served to one peer, event by event, without a session.
#![tactic(auto)]

ghost use Rattle.burdockpump.specs.Sound.{IsSound};

use anyhow::{Result, bail};
use burdockpump::trees::{Geometry, RootBuilder};
use burdockpump::{
    Disk, Engine, Frame, Hash32, Lanes, Made, MemoryDisk, NodeHash, Output, PeerKey, Torrent, Why,
    fits, make, read_torrent, write_handshake, write_message,
};
use std::alloc::Global;

/// The engine of one device in memory.
type Store = Engine<MemoryDisk, Lanes>;

/// The name of the torrent and of its file.
const NAME: &str = "one.txt";

/// The bytes of a piece, the fewest that BEP 52 allows.
const PIECE_LENGTH: u32 = 16384;

/// The root of the tree of a file that has these bytes (BEP 52). Errors: it has none, or more than 2^40.
fn root_of(bytes: &[u8]) -> Result<Hash32> {
    let Some(geometry) = Geometry::new(bytes.len() as u64) else {
        bail!("no tree has so many bytes");
    };
    let mut builder = RootBuilder::new(Lanes, geometry);
    builder.push(bytes)?;
    Ok(builder.finish()?)
}

/// The torrent of one file, of at most one piece, that has these bytes.
fn torrent_of(alloc: Global, bytes: &[u8]) -> Result<Torrent> {
    let mut path = Vec::new(alloc);
    path.push(String::from_str(alloc, NAME)?)?;
    let mut files = Vec::new(alloc);
    files.push(Made {
        path,
        length: bytes.len() as u64,
        root: root_of(bytes)?,
        layer: Vec::new(alloc),
    })?;
    let text = make(alloc, NAME.as_bytes(), PIECE_LENGTH, &files)?;
    Ok(read_torrent(alloc, &text)?)
}

/// An engine of a torrent, over a device that has these bytes, which has taken in nothing yet.
fn start(alloc: Global, torrent: Torrent, bytes: Vec<u8>) -> Result<Store> {
    let mut disks = Vec::new(alloc);
    disks.push(MemoryDisk::new(alloc, bytes))?;
    match Engine::start(alloc, torrent, Lanes, disks, None) {
        Ok(store) => Ok(store),
        Err(_) => bail!("no engine is started"),
    }
}

/// What a peer is to be sent, as the wire has it, is put after `sent`. Frames for others are left out: there are none.
fn spell(alloc: Global, peer: PeerKey, output: &Output, sent: &mut Vec<u8>) -> Result<()> {
    for (to, frame) in &output.send {
        if *to == peer {
            spell_frame(alloc, frame, sent)?;
        }
    }
    Ok(())
}

/// A frame, as the wire has it (BEP 3), is put after `sent`.
fn spell_frame(alloc: Global, frame: &Frame, sent: &mut Vec<u8>) -> Result<()> {
    match frame {
        Frame::Hello(handshake) => sent.extend_from_slice(&write_handshake(handshake))?,
        Frame::Message(message) if fits(message) => {
            let bytes = write_message(alloc, message)?;
            sent.extend_from_slice(&bytes)?
        }
        Frame::Message(_) => bail!("a message is too long to be sent"),
    }
    Ok(())
}

/// Takes what has come whole from a peer, one event after the other: why the peer was closed, if it was. A peer that was closed
/// is gone, so nothing more is asked of it.
fn take_events<D: Disk + Drop, H: NodeHash>(
    alloc: Global,
    store: &mut Engine<D, H>,
    peer: PeerKey,
    sent: &mut Vec<u8>,
) -> Result<Option<Why>> {
    for _ in 0..u64::MAX {
        let Some(output) = store.next(peer)? else {
            return Ok(None);
        };
        spell(alloc, peer, &output, sent)?;
        if let Some(why) = output.close {
            return Ok(Some(why));
        }
    }
    Ok(None)
}

/// Hears bytes of a peer, and decides anew whom to serve, without which no peer is unchoked: why the peer was closed, if it was.
/// What it is to be sent is put after `sent`. Whatever the bytes are, the marked blocks of honest devices are right.
fn hear<D: Disk + Drop, H: NodeHash>(
    alloc: Global,
    store: &mut Engine<D, H>,
    peer: PeerKey,
    bytes: &[u8],
    sent: &mut Vec<u8>,
) -> Result<Option<Why>>
    ensures sound { IsSound D.conduct H.digest store.new.state store.new.disks }
{
    let closed = hear_events(alloc, store, peer, bytes, sent);
    store.keeps_laws();
    closed
}

/// Hears bytes of a peer, as [`hear`] does.
fn hear_events<D: Disk + Drop, H: NodeHash>(
    alloc: Global,
    store: &mut Engine<D, H>,
    peer: PeerKey,
    bytes: &[u8],
    sent: &mut Vec<u8>,
) -> Result<Option<Why>> {
    store.feed(peer, bytes)?;
    let closed = take_events(alloc, store, peer, sent)?;
    let output = store.rechoke()?;
    spell(alloc, peer, &output, sent)?;
    Ok(closed)
}

/// The next line of the input: bytes in hexadecimal.
fn read_bytes(rt: &HostRuntime) -> Result<Vec<u8>> {
    let mut line = String::new(rt.alloc());
    rt.read_line(&mut line)?;
    Ok(hex::decode(rt.alloc(), line.trim_end())?)
}

/// The engine of a file whose bytes the input has first. It prints the torrent's infohash and how far the file is.
fn load(rt: &HostRuntime) -> Result<Store> {
    let bytes = read_bytes(rt)?;
    let torrent = torrent_of(rt.alloc(), &bytes)?;
    println!(rt;
        "infohash {}",
        hex::encode(rt.alloc(), &torrent.infohash())?
    )?;
    let mut store = start(rt.alloc(), torrent, bytes)?;
    store.adopt(0)?;
    println!(rt; "{:?}", store.report(0))?;
    Ok(store)
}

/// Prints what is sent, if there is something.
fn tell(rt: &HostRuntime, sent: &[u8]) -> Result<()> {
    if !sent.is_empty() {
        println!(rt; "sent {}", hex::encode(rt.alloc(), sent)?)?;
    }
    Ok(())
}

/// Connects a peer, and prints what it is sent first.
fn greet(rt: &HostRuntime, store: &mut Store) -> Result<PeerKey> {
    let (peer, output) = store.connect()?;
    let mut sent = Vec::new(rt.alloc());
    spell(rt.alloc(), peer, &output, &mut sent)?;
    tell(rt, &sent)?;
    Ok(peer)
}

/// Hears the next line of the input from the peer, and prints what it is sent, and why it was closed, if it was.
fn hear_next(rt: &HostRuntime, store: &mut Store, peer: PeerKey) -> Result<()> {
    let bytes = read_bytes(rt)?;
    let mut sent = Vec::new(rt.alloc());
    let closed = hear(rt.alloc(), store, peer, &bytes, &mut sent)?;
    tell(rt, &sent)?;
    if let Some(why) = closed {
        println!(rt; "closed {}", why.code())?;
    }
    Ok(())
}

/// Serves a peer that says three things: its handshake and interest, a request of the block, and one of more than there is.
fn serve(rt: &HostRuntime, store: &mut Store) -> Result<()> {
    let peer = greet(rt, store)?;
    for _ in 0..3 {
        hear_next(rt, store, peer)?;
    }
    Ok(())
}

fn main(rt: HostRuntime) -> Result<()> {
    let mut store = load(&rt)?;
    let done = serve(&rt, &mut store);
    drop(store);
    done
}
