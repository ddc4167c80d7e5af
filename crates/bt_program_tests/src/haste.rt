//! Runs of the program over the system's network, in which who waits for a peer has two seconds where it asks for two minutes, and a
//! minute passes in a second; and runs in which the two parts of a check are commands of the shell.

use bt_commands::run;
use bt_progress::{Console, Unwatched, Watch};
use std::alloc::Allocator;
use std::io::{self, ErrorKind, IsTerminal, Read, Write};
use std::net::{Net, OpenListener, OpenStream, Shutdown, SocketAddr, TcpListener, TcpStream};
use std::os::fd::{AsRawFd, RawFd};
use std::process::{Child, Command, Processes, Stdio, SystemProcess};
use std::time::{Clock, Duration};

/// How many times as short the time is for which a connection waits.
const HASTE: u32 = 60;

/// Runs the program in haste, and gives its status.
pub fn status_of(rt: &HostRuntime, words: &[String]) -> u8 {
    status_with(rt, &Unwatched, &[], words)
}

/// Runs it with two parts, which are commands of the shell: the first two words. An empty one can't be started. It tells
/// of them as the program does. Errors: there are no two words.
pub fn status_by_parts(rt: &HostRuntime, words: &[String]) -> io::Result<u8> {
    let [_, _, rest @ ..] = words else {
        return Err(io::Error::from(ErrorKind::InvalidInput));
    };
    let stderr = rt.stderr();
    let console = Console::new(rt.alloc(), rt, stderr, stderr.is_terminal());
    Ok(status_with(rt, &console, &words[..2], rest))
}

fn status_with<P: Watch>(rt: &HostRuntime, watch: &P, parts: &[String], words: &[String]) -> u8 {
    let net = Hasty { host: rt, parts };
    let mut writer = rt.stdout();
    let mut faults = rt.stderr();
    run(
        rt,
        &net,
        watch,
        words,
        &mut rt.stdin(),
        &mut writer,
        &mut faults,
    )
}

/// The host's network, in haste, and commands of the shell in place of two parts, where there are some.
#[derive(Clone, Copy)]
struct Hasty<'a> {
    host: &'a HostRuntime,
    parts: &'a [String],
}

impl<'a> Hasty<'a> {
    /// What is started in place of a part, if there is something. The words of the first have 0/2 among them.
    fn part<B: Allocator>(&self, command: &Command<B>) -> Option<&'a str> {
        let [first, second] = self.parts else {
            return None;
        };
        for word in command.get_args() {
            if word == "0/2" {
                return Some(first.as_str());
            }
        }
        Some(second.as_str())
    }
}

impl Net for Hasty<'_> {
    type Stream = HastyStream;

    type Listener = HastyListener;

    fn bind(&self, address: SocketAddr) -> io::Result<HastyListener> {
        Ok(HastyListener(self.host.bind(address)?))
    }

    fn connect(&self, address: SocketAddr) -> io::Result<HastyStream> {
        Ok(HastyStream(self.host.connect(address)?))
    }

    fn connect_timeout(&self, address: SocketAddr, limit: Duration) -> io::Result<HastyStream> {
        Ok(HastyStream(self.host.connect_timeout(address, limit)?))
    }

    fn lookup_host(&self, host: &str, port: u16, found: &mut [SocketAddr]) -> io::Result<usize> {
        self.host.lookup_host(host, port, found)
    }
}

impl Clock for Hasty<'_> {
    fn monotonic(&self) -> io::Result<Duration> {
        Ok(self.host.monotonic()?.saturating_mul(HASTE))
    }

    fn since_1970(&self) -> io::Result<Duration> {
        self.host.since_1970()
    }

    fn sleep(&self, time: Duration) {
        self.host.sleep(time / HASTE)
    }
}

impl Processes for Hasty<'_> {
    type Started = SystemProcess;

    fn spawn<B: Allocator + Clone>(
        &self,
        command: &Command<B>,
        stdin: &Stdio,
        stdout: &Stdio,
        stderr: &Stdio,
    ) -> io::Result<Child<SystemProcess>> {
        let Some(part) = self.part(command) else {
            return self.host.spawn(command, stdin, stdout, stderr);
        };
        if part.is_empty() {
            return Err(io::Error::from(ErrorKind::NotFound));
        }
        let mut shell = Command::new(self.host.alloc(), "/bin/sh")?;
        shell.arg("-c")?.arg(part)?;
        self.host.spawn(&shell, stdin, stdout, stderr)
    }
}

/// A connection that waits in haste.
#[derive(Drop)]
struct HastyStream(TcpStream);

impl Read for HastyStream {
    fn read(&mut self, buf: &mut [u8]) -> io::Result<usize> {
        self.0.read(buf)
    }
}

impl Write for HastyStream {
    fn write(&mut self, buf: &[u8]) -> io::Result<usize> {
        self.0.write(buf)
    }

    fn flush(&mut self) -> io::Result<()> {
        self.0.flush()
    }
}

/// The time in haste.
fn hastened(limit: Option<Duration>) -> Option<Duration> {
    Some(limit? / HASTE)
}

impl OpenStream for HastyStream {
    fn shutdown(&self, how: Shutdown) -> io::Result<()> {
        self.0.shutdown(how)
    }

    fn set_nodelay(&self, nodelay: bool) -> io::Result<()> {
        self.0.set_nodelay(nodelay)
    }

    fn set_read_timeout(&self, limit: Option<Duration>) -> io::Result<()> {
        self.0.set_read_timeout(hastened(limit))
    }

    fn set_write_timeout(&self, limit: Option<Duration>) -> io::Result<()> {
        self.0.set_write_timeout(hastened(limit))
    }

    fn try_clone(&self) -> io::Result<HastyStream> {
        Ok(HastyStream(self.0.try_clone()?))
    }
}

impl AsRawFd for HastyStream {
    fn as_raw_fd(&self) -> RawFd {
        self.0.as_raw_fd()
    }
}

/// A listener whose connections wait in haste.
#[derive(Drop)]
struct HastyListener(TcpListener);

impl OpenListener for HastyListener {
    type Stream = HastyStream;

    fn accept(&self) -> io::Result<(HastyStream, SocketAddr)> {
        let (stream, address) = self.0.accept()?;
        Ok((HastyStream(stream), address))
    }

    fn local_addr(&self) -> io::Result<SocketAddr> {
        self.0.local_addr()
    }
}

impl AsRawFd for HastyListener {
    fn as_raw_fd(&self) -> RawFd {
        self.0.as_raw_fd()
    }
}
