//! The standard streams that are written to.
ghost use Rattle.std.specs.Io.{WritesAtMost};

use crate::host::note;
use bt_progress::{Console, is_told_as_it_is, write_escaped_lines};
use std::io::{self, ErrorKind, Write};
use std::str;
use std::time::Clock;

/// Standard output. Where it is a terminal, characters by which that may do something are told by their numbers, as on
/// standard error; elsewhere each byte is written as it is. Where it is a pipe whose reader has closed it, nothing more
/// is told on a console.
#[derive(Drop)]
pub struct Output<'a, T, C, W> {
    pub inner: T,
    pub is_terminal: bool,
    pub console: &'a Console<'a, C, W>,
}

impl<T, C: Clock, W: Write> Output<'_, T, C, W> {
    /// Notes why a write failed, or that it did not.
    fn note<A>(&self, answer: &io::Result<A>) {
        if let Err(error) = answer
            && error.kind() == ErrorKind::BrokenPipe
        {
            self.console.silence();
        }
        note(self.console, answer);
    }
}

impl<T: Write, C: Clock, W: Write> Write for Output<'_, T, C, W> {
    fn write(&mut self, buf: &[u8]) -> io::Result<usize> {
        let answer = if self.is_terminal {
            show(&mut self.inner, buf)
        } else {
            self.inner.write(buf)
        };
        self.note(&answer);
        answer
    }

    fn flush(&mut self) -> io::Result<()> {
        let answer = self.inner.flush();
        self.note(&answer);
        answer
    }
}

/// Writes a text to a terminal: whole, so that none is cut within a character. What is no text is written as it is.
fn show<T: Write>(writer: &mut T, buf: &[u8]) -> io::Result<usize>
    ensures { WritesAtMost result buf.now }
{
    match str::from_utf8(buf) {
        Ok(text) if !is_told_as_it_is(text) => write_escaped_lines(writer, text)?,
        _ => writer.write_all(buf)?,
    }
    Ok(buf.len())
}

/// Standard error, for the fault that ends the program: nothing is told there where a console tells nothing more.
#[derive(Drop)]
pub struct Errors<'a, T, C, W> {
    pub inner: T,
    pub console: &'a Console<'a, C, W>,
}

impl<T: Write, C: Clock, W: Write> Write for Errors<'_, T, C, W> {
    fn write(&mut self, buf: &[u8]) -> io::Result<usize> {
        if self.console.is_silent() {
            return Ok(buf.len());
        }
        self.inner.write(buf)
    }

    fn flush(&mut self) -> io::Result<()> {
        self.inner.flush()
    }
}
