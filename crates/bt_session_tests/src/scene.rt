//! A network that stands in for the host's, with a clock of its own: one peer, which does what a row says, when the row says it.
ghost use Rattle.std.specs.Prelude.{◌≤◌, length};

use std::alloc::AllocError;
use std::cell::Cell;
use std::fmt::Write as _;
use std::io::{self, ErrorKind, Read, Write};
use std::net::{Ipv4Addr, Net, OpenListener, OpenStream, Shutdown, SocketAddr};
use std::os::fd::{AsRawFd, RawFd};
use std::time::{Clock, Duration};

/// What the peer does next.
#[derive(Drop)]
pub enum Act {
    Sends(Vec<u8>),
    /// It does nothing for so long.
    Waits(Duration),
    /// The program is at work for so long, before it reads on.
    Works(Duration),
    /// The program is stopped for so long as it reads, and that read is interrupted.
    Stops(Duration),
    /// From now on it takes this many bytes, and no more.
    Takes(usize),
    /// From now on each read that waits in vain ends so much later, as on a machine that is busy.
    Lags(Duration),
}

/// How a connection is used.
#[derive(Drop)]
struct Use {
    /// How long its peer had to answer, where that was dialled.
    limit: Cell<Duration>,
    /// Whether each write leaves at once.
    is_at_once: Cell<bool>,
    /// How many reads waited for their turn in vain.
    vain: Cell<u64>,
    /// Whether the peer was told that nothing more comes, and how many bytes came of it since.
    is_shut: Cell<bool>,
    heard: Cell<usize>,
}

impl Use {
    fn new() -> Self {
        Use {
            limit: Cell::new(Duration::ZERO),
            is_at_once: Cell::new(false),
            vain: Cell::new(0),
            is_shut: Cell::new(false),
            heard: Cell::new(0),
        }
    }

    fn wait_in_vain(&self) {
        self.vain.set(self.vain.get().saturating_add(1));
    }

    fn hear(&self, count: usize) {
        if self.is_shut.get() {
            self.heard.set(self.heard.get().saturating_add(count));
        }
    }
}

/// What the peer does, one after the other, and how far it is. After the last it closes its connection.
#[derive(Drop)]
pub struct Scene {
    acts: Vec<Act>,
    /// Which act is next,
    next: Cell<usize>,
    /// and how much of it is done: how many bytes are sent, or since when it waits.
    sent: Cell<usize>,
    since: Cell<Option<Duration>>,
    /// How many more bytes the peer takes.
    takes: Cell<usize>,
    /// How long a read of the socket waits, and a write.
    read_turn: Cell<Duration>,
    write_turn: Cell<Duration>,
    lag: Cell<Duration>,
    now: Cell<Duration>,
    used: Use,
    /// How many connections can't be taken before this one can, each with an error of this number.
    refused: Cell<u32>,
    code: i32,
}

impl Scene {
    pub fn new(acts: Vec<Act>, refused: u32, code: i32) -> Self {
        Scene {
            acts,
            next: Cell::new(0),
            sent: Cell::new(0),
            since: Cell::new(None),
            takes: Cell::new(usize::MAX),
            read_turn: Cell::new(Duration::ZERO),
            write_turn: Cell::new(Duration::ZERO),
            lag: Cell::new(Duration::ZERO),
            now: Cell::new(Duration::ZERO),
            used: Use::new(),
            refused: Cell::new(refused),
            code,
        }
    }

    /// How many whole seconds have passed.
    pub fn seconds(&self) -> u64 {
        self.now.get().as_secs()
    }

    /// Adds how the connection was used.
    pub fn push_use(&self, text: &mut String) -> Result<(), AllocError> {
        let used = &self.used;
        write!(text, ", {} s to answer", used.limit.get().as_secs())?;
        write!(text, ", {} reads in vain", used.vain.get())?;
        if used.is_at_once.get() {
            text.push_str(", at once")?;
        }
        if used.is_shut.get() {
            write!(text, ", {} bytes behind the end", used.heard.get())?;
        }
        Ok(())
    }

    fn pass(&self, time: Duration) {
        self.now.set(self.now.get().saturating_add(time));
    }

    fn skip(&self) {
        self.next.set(self.next.get().saturating_add(1));
        self.sent.set(0);
        self.since.set(None);
    }

    /// Waits for a turn, or until this time has passed since it was begun: whether it has then.
    fn wait(&self, time: Duration) -> bool {
        let now = self.now.get();
        let since = self.since.get().unwrap_or(now);
        self.since.set(Some(since));
        let left = since.saturating_add(time).saturating_sub(now);
        let turn = self.read_turn.get();
        self.pass(left.min(turn));
        if left > turn {
            self.pass(self.lag.get());
            self.used.wait_in_vain();
            return false;
        }
        self.skip();
        true
    }

    /// Passes the time for which the program is at work now, if it is.
    fn work(&self) {
        if let Some(Act::Works(time)) = self.acts.get(self.next.get()) {
            self.pass(*time);
            self.skip();
        }
    }

    /// Gives what is left of these bytes, as much as there is room for.
    fn send(&self, bytes: &[u8], buffer: &mut [u8]) -> usize
        ensures { result ≤ length buffer.new }
    {
        let rest = &bytes[self.sent.get().min(bytes.len())..];
        let count = rest.len().min(buffer.len());
        buffer[..count].copy_from_slice(&rest[..count]);
        if count < rest.len() {
            self.sent.set(self.sent.get().saturating_add(count));
        } else {
            self.skip();
        }
        count
    }
}

/// A handle of the peer's connection.
#[derive(Clone, Copy)]
pub struct SceneStream<'a>(&'a Scene);

impl Read for SceneStream<'_> {
    fn read(&mut self, buffer: &mut [u8]) -> io::Result<usize> {
        let scene = self.0;
        for _ in 0..u64::MAX {
            match scene.acts.get(scene.next.get()) {
                Some(Act::Sends(bytes)) => {
                    let count = scene.send(bytes, buffer);
                    scene.used.hear(count);
                    return Ok(count);
                }
                Some(Act::Waits(time)) => {
                    if !scene.wait(*time) {
                        return Err(io::Error::from(ErrorKind::WouldBlock));
                    }
                }
                Some(Act::Takes(count)) => {
                    scene.takes.set(*count);
                    scene.skip();
                }
                Some(Act::Lags(time)) => {
                    scene.lag.set(*time);
                    scene.skip();
                }
                Some(Act::Works(_)) => scene.work(),
                Some(Act::Stops(time)) => {
                    scene.pass(*time);
                    scene.skip();
                    return Err(io::Error::from(ErrorKind::Interrupted));
                }
                None => return Ok(0),
            }
        }
        Ok(0)
    }
}

impl Write for SceneStream<'_> {
    /// As a system does, waits for a turn where not all bytes are taken, and then tells how many were.
    fn write(&mut self, bytes: &[u8]) -> io::Result<usize> {
        let scene = self.0;
        let takes = scene.takes.get();
        let count = bytes.len().min(takes);
        if count < bytes.len() {
            scene.pass(scene.write_turn.get());
        }
        if count == 0 && !bytes.is_empty() {
            return Err(io::Error::from(ErrorKind::WouldBlock));
        }
        if takes != usize::MAX {
            scene.takes.set(takes - count);
        }
        Ok(count)
    }

    fn flush(&mut self) -> io::Result<()> {
        Ok(())
    }
}

impl OpenStream for SceneStream<'_> {
    fn shutdown(&self, how: Shutdown) -> io::Result<()> {
        if how == Shutdown::Write {
            self.0.used.is_shut.set(true);
        }
        Ok(())
    }

    fn set_nodelay(&self, nodelay: bool) -> io::Result<()> {
        self.0.used.is_at_once.set(nodelay);
        Ok(())
    }

    fn set_read_timeout(&self, limit: Option<Duration>) -> io::Result<()> {
        self.0.read_turn.set(limit.unwrap_or(Duration::MAX));
        Ok(())
    }

    fn set_write_timeout(&self, limit: Option<Duration>) -> io::Result<()> {
        self.0.write_turn.set(limit.unwrap_or(Duration::MAX));
        Ok(())
    }

    fn try_clone(&self) -> io::Result<Self> {
        Ok(*self)
    }
}

impl AsRawFd for SceneStream<'_> {
    fn as_raw_fd(&self) -> RawFd {
        -1
    }
}

/// What is read from that connection, by a program that is at work between its reads where a scene says so.
#[derive(Drop)]
pub struct WorkingReader<'a, R> {
    inner: R,
    scene: &'a Scene,
}

impl<'a, R> WorkingReader<'a, R> {
    pub fn new(inner: R, scene: &'a Scene) -> Self {
        WorkingReader { inner, scene }
    }
}

impl<R: Read> Read for WorkingReader<'_, R> {
    fn read(&mut self, buffer: &mut [u8]) -> io::Result<usize> {
        self.scene.work();
        self.inner.read(buffer)
    }
}

/// Where the peer is waited for.
#[derive(Clone, Copy)]
pub struct SceneListener<'a>(&'a Scene);

impl<'a> OpenListener for SceneListener<'a> {
    type Stream = SceneStream<'a>;

    fn accept(&self) -> io::Result<(SceneStream<'a>, SocketAddr)> {
        let scene = self.0;
        let refused = scene.refused.get();
        if refused > 0 {
            scene.refused.set(refused - 1);
            return Err(io::Error::from_raw_os_error(scene.code));
        }
        let address = SocketAddr::from((Ipv4Addr::LOCALHOST, 0));
        Ok((SceneStream(scene), address))
    }
}

impl AsRawFd for SceneListener<'_> {
    fn as_raw_fd(&self) -> RawFd {
        -1
    }
}

/// The network in which that peer is reached by every address.
#[derive(Clone, Copy)]
pub struct SceneNet<'a>(pub &'a Scene);

impl<'a> Net for SceneNet<'a> {
    type Stream = SceneStream<'a>;

    type Listener = SceneListener<'a>;

    fn bind(&self, _address: SocketAddr) -> io::Result<SceneListener<'a>> {
        Ok(SceneListener(self.0))
    }

    fn connect(&self, _address: SocketAddr) -> io::Result<SceneStream<'a>> {
        Ok(SceneStream(self.0))
    }

    fn connect_timeout(
        &self,
        _address: SocketAddr,
        limit: Duration,
    ) -> io::Result<SceneStream<'a>> {
        self.0.used.limit.set(limit);
        Ok(SceneStream(self.0))
    }
}

impl Clock for SceneNet<'_> {
    fn monotonic(&self) -> io::Result<Duration> {
        Ok(self.0.now.get())
    }

    fn since_1970(&self) -> io::Result<Duration> {
        Ok(self.0.now.get())
    }

    fn sleep(&self, time: Duration) {
        self.0.pass(time);
    }
}
