//! A script, from its torrent to its last line.
ghost use Rattle.std.specs.Prelude.{◌≡◌, ◌^◌, ◌<◌, ◌≤◌, IfOk, IfErr, OnOk, filter_map, length};
ghost use Rattle.bt_session.specs.Failures.{OnlyAfterFailure};
ghost use Rattle.bt_replay.specs.Event.{peer_handshake};
ghost use Rattle.bt_replay.specs.Fault.{torrent_fault};
ghost use Rattle.bt_replay.specs.Script.{BeginsOn, IsNewLog, NamesNone, NamesTorrent, Replays, torrent_bytes, without_last_feed};
ghost use Rattle.bt_replay.specs.Run.{lines_in};

use crate::devices::{Device, first_devices, zero_device};
use crate::fault::ReplayFault;
use crate::field::cut;
use crate::line::{Line, line_in};
use crate::run::run_all;
use crate::settings::set_devices;
use bt_engine::Engine;
use bt_lanes::Lanes;
use bt_meta::{MetaError, Torrent, read_torrent};
use bt_resume::ResumeLog;
use bt_session::WatchedWriter;
use bt_tree::Hash32;
use bt_wire::{Bytes, HANDSHAKE_LEN, Handshake, write_handshake};
use std::alloc::{AllocError, Global};

/// Starts an engine on the devices that a script names, does what its lines ask for, one after the other, and
/// writes what tells of each as it is done.
///
/// Errors, the first that is met: `Line` where a line can't stand there; `Torrent` where the torrent is refused;
/// out of memory; `Write` where the writer failed.
pub fn run_script<W: WatchedWriter>(
    alloc: Global,
    script: &[u8],
    writer: &mut W,
) -> Result<(), ReplayFault>
    requires { length script.now ≤ 2 ^ 24 }
    ensures replays { Replays script.now (W.contents writer.old) (W.contents writer.new) result }
    ensures write_fault { IfErr result (OnlyAfterFailure ReplayFault.Write
        (W.has_failed writer.new)) }
    ensures flushed { OnOk result (W.is_flushed writer.new) }
{
    let (first, rest) = cut(without_last_feed(script), b'\n');
    let torrent = torrent_in(alloc, first)?;
    let handshake = peer_handshake(&torrent);
    let (mut engine, rest, count) = begin(alloc, torrent, rest)?;
    run_all(
        alloc,
        &mut engine,
        Lanes,
        &handshake,
        rest,
        count + 2,
        writer,
    )
}

/// A text without the line feed at its end, where there is one.
fn without_last_feed(text: &[u8]) -> &[u8]
    ensures { result.now ≡ without_last_feed text.now }
{
    match text {
        [front @ .., b'\n'] => front,
        _ => text,
    }
}

/// The torrent that the first line names.
fn torrent_in(alloc: Global, text: &[u8]) -> Result<Torrent, ReplayFault>
    ensures torrent { IfOk result (NamesTorrent text.now) }
    ensures fault { IfErr result (NamesNone text.now) }
{
    let Some(line) = line_in(alloc, text)? else {
        return Err(ReplayFault::Line(1));
    };
    let Some(bytes) = torrent_bytes(line) else {
        return Err(ReplayFault::Line(1));
    };
    match read_torrent(alloc, bytes.as_slice()) {
        Ok(torrent) => Ok(torrent),
        Err(refusal) => Err(torrent_fault(refusal)),
    }
}

/// Why no torrent is read: where it is want of memory, the torrent is not refused.
fn torrent_fault(refusal: MetaError) -> ReplayFault
    ensures { result ≡ torrent_fault refusal }
{
    match refusal {
        MetaError::OutOfMemory => ReplayFault::OutOfMemory,
        _ => ReplayFault::Torrent(refusal),
    }
}

/// The bytes of the torrent that a line names, where it names one.
fn torrent_bytes(line: Line) -> Option<Bytes>
    ensures { result ≡ torrent_bytes line }
{
    match line {
        Line::Torrent(bytes) => Some(bytes),
        _ => None,
    }
}

/// The handshake of a peer of the script.
fn peer_handshake(torrent: &Torrent) -> [u8; HANDSHAKE_LEN]
    ensures { result ≡ peer_handshake torrent.now }
{
    let whole = torrent.infohash();
    let mut infohash = [0; 20];
    infohash.copy_from_slice(&whole[..20]);
    write_handshake(&Handshake {
        infohash,
        peer_id: [b'p'; 20],
    })
}

/// Starts the engine with a log on the devices that the lines set, and gives the lines after these settings,
/// and how many settings there are.
fn begin<'a>(
    alloc: Global,
    torrent: Torrent,
    lines: Option<&'a [u8]>,
) -> Result<(Engine<Device, Lanes>, Option<&'a [u8]>, u64), ReplayFault>
    requires { length (lines_in lines) < 2 ^ 64 }
    ensures begun { IfOk result (λ b. BeginsOn torrent (lines_in lines.entry) b.0
        (lines_in b.1) b.2) }
    ensures fault { IfErr result (λ fault. fault ≡ ReplayFault.OutOfMemory) }
{
    let mut devices = first_devices(alloc, torrent.files())?;
    let (rest, count) = set_devices(alloc, &mut devices, lines)?;
    let disks = disks_of(alloc, devices)?;
    let log = new_log(alloc, torrent.infohash())?;
    match Engine::start(alloc, torrent, Lanes, disks, Some(log)) {
        Ok(engine) => Ok((engine, rest, count)),
        Err(_) => Err(ReplayFault::OutOfMemory),
    }
}

/// The devices that are there, in their order.
fn disks_of(alloc: Global, devices: Vec<Option<Device>>) -> Result<Vec<Device>, AllocError>
    ensures { IfOk result (λ disks. disks.items ≡ filter_map (λ device. device) devices.items) }
{
    devices
        .into_iter()
        .filter_map(|device| device)
        .collect(alloc)
}

/// A log of the torrent with this infohash, on an empty device, which gets its header.
fn new_log(alloc: Global, infohash: Hash32) -> Result<ResumeLog<Device>, AllocError>
    ensures { IfOk result (IsNewLog infohash) }
{
    let device = zero_device(alloc, 0)?;
    match ResumeLog::attach(alloc, device, infohash) {
        Ok(log) => Ok(log),
        // A device in memory fails only where memory is refused.
        Err(_) => Err(AllocError),
    }
}
