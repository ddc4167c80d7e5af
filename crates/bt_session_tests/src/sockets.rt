//! Connections of this machine with itself.
ghost use Rattle.std.specs.Prelude.{◌≡◌};

use crate::engine::TestEngine;
use crate::names::is_name_reached;
use crate::plays::play_row;
use crate::sessions::tell_end;
use bt_connection::ShortBlocks;
use bt_meta::Torrent;
use bt_progress::Unwatched;
use bt_session::{Link, PeerEnd, end_text};
use bt_sockets::{
    IDLE_SECONDS, Passage, Shared, StreamReader, StreamWriter, TcpLink, listen, port_of, serve,
};
use std::alloc::{AllocError, Global};
use std::fmt::Write;
use std::io::{self, Read};
use std::net::{Net, OpenListener, OpenStream, TcpStream};
use std::time::Duration;

const HOST: &str = "127.0.0.1";

type Listener = <HostRuntime as Net>::Listener;

type Stream = <HostRuntime as Net>::Stream;

type Reader<'a> = StreamReader<'a, Stream, HostRuntime>;

type Writer<'a> = StreamWriter<'a, Stream, HostRuntime>;

/// What stands between sockets and an engine.
#[derive(Drop)]
struct Site<'a> {
    net: &'a HostRuntime,
    alloc: Global,
    passage: Passage<'a>,
}

/// As long as a program waits.
fn patience() -> Duration {
    Duration::from_secs(IDLE_SECONDS)
}

/// Adds what a row answers: whether a closed port is reached, or a name of several addresses, a byte that goes there and back, whether
/// requests wait to be sent, what comes of this many milliseconds of silence, or of a peer that takes its time.
pub fn socket_row(
    net: &HostRuntime,
    alloc: Global,
    torrent: &Torrent,
    engine: &mut TestEngine,
    row: &str,
    out: &mut String,
) -> Result<(), AllocError> {
    let short_blocks = ShortBlocks::new(alloc, torrent)?;
    let shared = Shared::new(alloc)?;
    let pieces = engine.torrent().pieces();
    row_between(net, alloc, &short_blocks, pieces, &shared, engine, row, out)
}

/// The same, with this between sockets and the engine.
fn row_between<'a>(
    net: &'a HostRuntime,
    alloc: Global,
    short_blocks: &'a ShortBlocks,
    pieces: u32,
    shared: &'a Shared,
    engine: &mut TestEngine,
    row: &str,
    out: &mut String,
) -> Result<(), AllocError> {
    let passage = Passage {
        short_blocks,
        pieces,
        shared,
    };
    let site = Site {
        net,
        alloc,
        passage,
    };
    answer_row(&site, engine, row, out)
}

fn answer_row(
    site: &Site<'_>,
    engine: &mut TestEngine,
    row: &str,
    out: &mut String,
) -> Result<(), AllocError> {
    let (net, alloc, passage) = (site.net, site.alloc, site.passage);
    let (name, rest) = row.split_once(' ').unwrap_or((row, "0"));
    let number = rest.parse::<u8>().unwrap_or(0);
    let idle = Duration::from_millis(number as u64);
    match name {
        "closed" => tell_reached(out, is_closed_reached(site)),
        "name" => tell_reached(out, is_name_reached(net, passage, number)),
        "echo" => tell_echo(out, echo(site, number)),
        "held" => out.push_str(if is_held(site, idle) {
            "held\n"
        } else {
            "not held\n"
        }),
        "silent" => out.push_str(if is_given_up(site, idle) {
            "given up\n"
        } else {
            "not given up\n"
        }),
        "play" => play_row(alloc, passage, engine, rest, out),
        "serve" => tell_served(out, silent_end(site, engine, idle)),
        _ => out.push_str("no socket\n"),
    }
}

fn tell_reached(out: &mut String, is_reached: bool) -> Result<(), AllocError> {
    out.push_str(if is_reached {
        "reached\n"
    } else {
        "not reached\n"
    })
}

/// A link to a port of this machine.
fn link<'a>(site: &Site<'a>, port: u16, idle: Duration) -> TcpLink<'a, HostRuntime, Unwatched>
    ensures { result.all ≡ 0 }
{
    TcpLink::new(
        site.net,
        HOST,
        port,
        idle,
        site.passage,
        site.alloc,
        &Unwatched,
    )
}

fn dialled<'a>(site: &Site<'a>, port: u16, idle: Duration) -> Option<(Reader<'a>, Writer<'a>)> {
    link(site, port, idle).dial()
}

/// A port at which nobody listens any more.
fn closed_port(net: &HostRuntime) -> Option<u16> {
    let listener = listen(net, HOST, 0).ok()?;
    port_of(&listener).ok()
}

fn is_closed_reached(site: &Site<'_>) -> bool {
    match closed_port(site.net) {
        Some(port) => dialled(site, port, patience()).is_some(),
        None => true,
    }
}

/// Sends a byte over a link to a listener, and back, and gives what comes.
fn echo(site: &Site<'_>, byte: u8) -> Option<u8> {
    let listener = listen(site.net, HOST, 0).ok()?;
    echo_by(site, &listener, byte)
}

fn echo_by(site: &Site<'_>, listener: &Listener, byte: u8) -> Option<u8> {
    let port = port_of(listener).ok()?;
    let (mut reader, mut writer) = dialled(site, port, patience())?;
    echo_over(listener, &mut writer, &mut reader, byte)
}

// Each socket is owned by a function of its own, which lends it: a body that lets go of several at each `?` is proved with all
// their parts each time.
fn echo_over<W: io::Write, R: Read>(
    listener: &Listener,
    writer: &mut W,
    reader: &mut R,
    byte: u8,
) -> Option<u8> {
    let (mut stream, _) = listener.accept().ok()?;
    echo_from(&mut stream, writer, reader, byte).ok()
}

fn echo_from<S: Read + io::Write, W: io::Write, R: Read>(
    stream: &mut S,
    writer: &mut W,
    reader: &mut R,
    byte: u8,
) -> io::Result<u8> {
    let there = pass(writer, stream, byte)?;
    pass(stream, reader, there)
}

/// Writes a byte at one end, and gives the one that is read at the other.
fn pass<W: io::Write, R: Read>(writer: &mut W, reader: &mut R, byte: u8) -> io::Result<u8> {
    let mut room = [0];
    writer.write_all(&[byte])?;
    reader.read_exact(&mut room)?;
    Ok(room[0])
}

fn tell_echo(out: &mut String, byte: Option<u8>) -> Result<(), AllocError> {
    match byte {
        Some(byte) => writeln!(out, "{byte}"),
        None => out.push_str("no connection\n"),
    }
}

/// Two requests, one after the other, each of `REQUEST_LEN` bytes.
const REQUESTS: [u8; 2 * REQUEST_LEN] = [
    0, 0, 0, 13, 6, 0, 0, 0, 1, 0, 0, 0, 0, 0, 0, 64, 0, 0, 0, 0, 13, 6, 0, 0, 0, 2, 0, 0, 0, 0, 0,
    0, 64, 0,
];

const REQUEST_LEN: usize = 17;

/// Whether requests that are written to a link stay here for so long, leave before it is read, and leave before
/// something else that is written.
fn is_held(site: &Site<'_>, idle: Duration) -> bool {
    match listen(site.net, HOST, 0) {
        Ok(listener) => is_held_by(site, &listener, idle).unwrap_or(false),
        Err(_) => false,
    }
}

fn is_held_by(site: &Site<'_>, listener: &Listener, idle: Duration) -> Option<bool> {
    let port = port_of(listener).ok()?;
    let (mut reader, mut writer) = dialled(site, port, patience())?;
    is_held_over(listener, &mut writer, &mut reader, idle)
}

fn is_held_over<W: io::Write, R: Read>(
    listener: &Listener,
    writer: &mut W,
    reader: &mut R,
    idle: Duration,
) -> Option<bool> {
    let (mut stream, _) = listener.accept().ok()?;
    leaves_before_a_read(writer, reader, &mut stream, idle).ok()
}

fn leaves_before_a_read<W: io::Write, R: Read>(
    writer: &mut W,
    reader: &mut R,
    stream: &mut Stream,
    idle: Duration,
) -> io::Result<bool> {
    writer.write_all(&REQUESTS[..REQUEST_LEN])?;
    writer.write_all(&REQUESTS[REQUEST_LEN..])?;
    stream.set_read_timeout(Some(idle))?;
    if stream.read(&mut [0]).is_ok() {
        return Ok(false);
    }
    stream.set_read_timeout(Some(patience()))?;
    pass(stream, reader, 7)?;
    Ok(arrive(stream, &REQUESTS)? && leaves_before_a_write(writer, stream)?)
}

fn leaves_before_a_write<W: io::Write>(writer: &mut W, stream: &mut Stream) -> io::Result<bool> {
    writer.write_all(&REQUESTS[..REQUEST_LEN])?;
    writer.write_all(&[9])?;
    Ok(arrive(stream, &REQUESTS[..REQUEST_LEN])? && arrive(stream, &[9])?)
}

/// Whether these bytes come next.
fn arrive<R: Read>(reader: &mut R, bytes: &[u8]) -> io::Result<bool> {
    for byte in bytes {
        let mut room = [0];
        reader.read_exact(&mut room)?;
        if room[0] != *byte {
            return Ok(false);
        }
    }
    Ok(true)
}

/// Whether a peer that is reached over a link, and sends nothing for so long, is given up.
fn is_given_up(site: &Site<'_>, idle: Duration) -> bool {
    match listen(site.net, HOST, 0) {
        Ok(listener) => is_given_up_by(site, &listener, idle),
        Err(_) => false,
    }
}

fn is_given_up_by(site: &Site<'_>, listener: &Listener, idle: Duration) -> bool {
    let Ok(port) = port_of(listener) else {
        return false;
    };
    match dialled(site, port, idle) {
        Some((mut reader, _writer)) => reader.read(&mut [0]).is_err(),
        None => false,
    }
}

/// What comes of serving a peer that sends nothing for so long.
fn silent_end(site: &Site<'_>, engine: &mut TestEngine, idle: Duration) -> Option<PeerEnd> {
    let listener = listen(site.net, HOST, 0).ok()?;
    let port = port_of(&listener).ok()?;
    let _silent = TcpStream::connect(site.net, (HOST, port)).ok()?;
    served(site, engine, &listener, idle)
}

fn served(
    site: &Site<'_>,
    engine: &mut TestEngine,
    listener: &Listener,
    idle: Duration,
) -> Option<PeerEnd> {
    if engine.peers() != 0 {
        return None;
    }
    let Site {
        net,
        alloc,
        passage,
    } = *site;
    serve(net, alloc, engine, listener, idle, passage, &Unwatched).ok()
}

fn tell_served(out: &mut String, end: Option<PeerEnd>) -> Result<(), AllocError> {
    match end {
        Some(PeerEnd::Session(end)) => tell_end(out, &Ok(end))?,
        Some(end) => out.push_str(end_text(end))?,
        None => out.push_str("not served")?,
    }
    out.push_str("\n")
}
