//! A peer that says what a row has it say.

use bt_rows::bytes_of;
use std::alloc::Global;
use std::io;
use std::io::{ErrorKind, Read, Write};
use std::net::{TcpListener, TcpStream};
use std::thread::sleep;
use std::time::Duration;

const HOST: &str = "127.0.0.1";

/// How many milliseconds a read waits, a peer rests, and the other side of a connection is waited for.
const PATIENCE: u64 = 20_000;

/// How many milliseconds pass between two looks for a connection.
const PAUSE: u64 = 20;

/// How many milliseconds a peer pauses.
const BREATH: u64 = 1000;

/// The most bytes that are printed one by one.
const MOST_SHOWN: usize = 256;

/// Connects to the port that the first word names, or waits for a connection where it is `listen`, and does what each
/// word after it says: bytes are sent, `get:N` takes N bytes and prints them, `end` takes and prints those that come
/// until the other side ends, `pause` does nothing for a second, and `rest` for 20. Errors: there is no connection, a word
/// that is none of these, or the other side takes or gives less.
pub fn meet(rt: &HostRuntime, words: &[String]) -> io::Result<()> {
    let Some((place, steps)) = words.split_first() else {
        return Err(io::Error::from(ErrorKind::InvalidInput));
    };
    let mut stream = match place.parse::<u16>() {
        Ok(port) => TcpStream::connect(rt, (HOST, port))?,
        Err(_) => awaited(rt)?,
    };
    stream.set_read_timeout(Some(Duration::from_millis(PATIENCE)))?;
    for step in steps {
        take_step(rt, &mut stream, step.as_str())?;
    }
    Ok(())
}

/// Tells a port, and waits for a connection to it.
fn awaited(rt: &HostRuntime) -> io::Result<TcpStream> {
    let listener = TcpListener::bind(rt, (HOST, 0u16))?;
    listener.set_nonblocking(true)?;
    let port = listener.local_addr()?.port();
    println!(rt; "listening {port}")?;
    for _ in 0..PATIENCE / PAUSE {
        match listener.accept() {
            Ok((stream, _)) => return Ok(stream),
            Err(_) => sleep(rt, Duration::from_millis(PAUSE)),
        }
    }
    Err(io::Error::from(ErrorKind::TimedOut))
}

fn take_step(rt: &HostRuntime, stream: &mut TcpStream, step: &str) -> io::Result<()> {
    match step {
        "end" => take_all(rt, stream),
        "pause" => {
            sleep(rt, Duration::from_millis(BREATH));
            Ok(())
        }
        "rest" => {
            sleep(rt, Duration::from_millis(PATIENCE));
            Ok(())
        }
        _ => exchange(rt, stream, step),
    }
}

/// Takes as many bytes as a word says, or sends those that it stands for.
fn exchange(rt: &HostRuntime, stream: &mut TcpStream, step: &str) -> io::Result<()> {
    match step.strip_prefix("get:") {
        Some(count) => take(rt, stream, count.parse::<u16>().unwrap_or(0)),
        None => send(rt.alloc(), stream, step),
    }
}

fn take(rt: &HostRuntime, stream: &mut TcpStream, count: u16) -> io::Result<()> {
    let mut bytes = vec![in rt.alloc(); 0; count as usize]?;
    stream.read_exact(&mut bytes)?;
    show(rt, &bytes)
}

fn take_all(rt: &HostRuntime, stream: &mut TcpStream) -> io::Result<()> {
    let mut bytes = Vec::new(rt.alloc());
    stream.read_to_end(&mut bytes)?;
    show(rt, &bytes)
}

fn send(alloc: Global, stream: &mut TcpStream, word: &str) -> io::Result<()> {
    match bytes_of(alloc, word)? {
        Some(bytes) => stream.write_all(&bytes),
        None => Err(io::Error::from(ErrorKind::InvalidInput)),
    }
}

/// Prints how many bytes, and which where they are no more than are printed.
fn show(rt: &HostRuntime, bytes: &[u8]) -> io::Result<()> {
    let count = bytes.len();
    if count == 0 || count > MOST_SHOWN {
        return println!(rt; "{count} bytes");
    }
    println!(rt; "{count} bytes {}", hex::encode(rt.alloc(), bytes)?)
}
