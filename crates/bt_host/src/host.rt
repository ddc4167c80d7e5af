//! The system, as one that says why its calls fail.

use bt_progress::{Console, system_reason};
use std::alloc::Allocator;
use std::env::{Env, FillError};
use std::io::{self, Write};
use std::process::{Child, Command, Processes, Stdio};
use std::time::{Clock, Duration};

/// A runtime whose calls are those of another. Of each call on files, processes and the network it is noted on a
/// console why it failed, or that it did not.
#[derive_where(Clone, Copy)]
pub struct Host<'a, R, C, W> {
    pub rt: &'a R,
    pub console: &'a Console<'a, C, W>,
}

impl<R, C: Clock, W: Write> Host<'_, R, C, W> {
    /// Notes why a call failed, or that it did not.
    pub(crate) fn note<T>(&self, answer: &io::Result<T>) {
        note(self.console, answer);
    }
}

/// Notes why a call failed, or that it did not.
pub(crate) fn note<T, C: Clock, W: Write>(console: &Console<'_, C, W>, answer: &io::Result<T>) {
    console.note(match answer {
        Ok(_) => None,
        Err(error) => system_reason(error),
    });
}

impl<R: Alloc, C, W> Alloc for Host<'_, R, C, W> {
    type A = R::A;

    fn alloc(&self) -> R::A {
        self.rt.alloc()
    }
}

impl<R: Env, C, W> Env for Host<'_, R, C, W> {
    fn arg(&self, i: usize, buf: &mut [u8]) -> Result<usize, FillError> {
        self.rt.arg(i, buf)
    }

    fn var(&self, name: &str, buf: &mut [u8]) -> Result<usize, FillError> {
        self.rt.var(name, buf)
    }

    fn var_at(&self, i: usize, buf: &mut [u8]) -> Result<usize, FillError> {
        self.rt.var_at(i, buf)
    }

    fn current_dir(&self, buf: &mut [u8]) -> io::Result<usize> {
        self.rt.current_dir(buf)
    }

    fn set_current_dir(&self, path: &str) -> io::Result<()> {
        self.rt.set_current_dir(path)
    }
}

impl<R: Clock, C, W> Clock for Host<'_, R, C, W> {
    fn monotonic(&self) -> io::Result<Duration> {
        self.rt.monotonic()
    }

    fn since_1970(&self) -> io::Result<Duration> {
        self.rt.since_1970()
    }

    fn sleep(&self, duration: Duration) {
        self.rt.sleep(duration)
    }
}

impl<R: Processes, C: Clock, W: Write> Processes for Host<'_, R, C, W> {
    type Started = R::Started;

    fn spawn<B: Allocator + Clone>(
        &self,
        command: &Command<B>,
        stdin: &Stdio,
        stdout: &Stdio,
        stderr: &Stdio,
    ) -> io::Result<Child<R::Started>> {
        let answer = self.rt.spawn(command, stdin, stdout, stderr);
        self.note(&answer);
        answer
    }
}
