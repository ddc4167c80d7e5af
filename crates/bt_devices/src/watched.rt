//! Devices, readers and writers that tell of their calls.
ghost use Rattle.std.specs.Prelude.{◌≡◌};

use crate::alarm::Alarm;
use bt_disk::{DeviceFault, Disk};
use bt_progress::{FileCall, Watch};
use std::io::{self, ErrorKind, Read, Write};
use std::marker::Model;

/// A device or a reader whose bytes are counted; or a writer of results, before which the line of progress is taken
/// away. Of their calls the first that fails is told.
///
/// To every contract it is what it has inside, to which each call goes.
#[derive(Drop)]
pub struct Watched<'a, T, P> {
    inner: T,
    watch: &'a P,
    /// What a failed call is told of: none where that was done, or there is no name.
    name: Option<String>,
    /// What rings where a write of a device fails.
    alarm: Option<&'a Alarm>,
}

impl<'a, T, P> Model for Watched<'a, T, P> {
    ghost Value = { T };

    ghost view = { λ w. w.inner };
}

impl<'a, T, P: Watch> Watched<'a, T, P> {
    /// Tells of the calls of `inner` to `watch`, where there is a name also of the first that fails.
    pub fn new(inner: T, watch: &'a P, name: Option<String>) -> Self
        ensures { result ≡ inner }
    {
        Watched {
            inner,
            watch,
            name,
            alarm: None,
        }
    }

    /// Tells of the calls of `inner` as [`Watched::new`] does, and rings an alarm where a write of it fails.
    pub fn with_alarm(inner: T, watch: &'a P, name: Option<String>, alarm: &'a Alarm) -> Self
        ensures { result ≡ inner }
    {
        Watched {
            inner,
            watch,
            name,
            alarm: Some(alarm),
        }
    }

    /// Rings where a call failed.
    fn ring(&self, failed: bool) {
        if let Some(alarm) = self.alarm
            && failed
        {
            alarm.ring();
        }
    }

    /// Tells of a call, if it is the first that failed.
    pub fn tell(&mut self, call: FileCall, failed: bool)
        ensures { self.new ≡ self.old }
    {
        if failed && self.watch.is_verbose() {
            if let Some(name) = self.name.take() {
                self.watch.tell_fault(call, name.as_str());
            }
        }
    }
}

impl<'a, D: Disk, P: Watch> Disk for Watched<'a, D, P> {
    ghost conduct = { D.conduct };

    ghost reads_image = { λ w honest. D.reads_image w honest };

    fn len(&mut self) -> Result<u64, DeviceFault> {
        let answer = self.inner.len();
        let failed = answer.is_err();
        self.tell(FileCall::Length, failed);
        answer
    }

    fn read_at(&mut self, at: u64, out: &mut [u8]) -> Result<usize, DeviceFault> {
        let answer = self.inner.read_at(at, out);
        let failed = answer.is_err();
        self.tell(FileCall::Read, failed);
        // All that was wanted is done: also what lies past the end of a file that is too short.
        self.watch.advance(FileCall::Read, out.len() as u64);
        answer
    }

    fn write_at(&mut self, at: u64, bytes: &[u8]) -> Result<(), DeviceFault> {
        let answer = self.inner.write_at(at, bytes);
        let failed = answer.is_err();
        self.ring(failed);
        self.tell(FileCall::Write, failed);
        self.watch.advance(FileCall::Write, bytes.len() as u64);
        answer
    }

    fn set_len(&mut self, len: u64) -> Result<(), DeviceFault> {
        let answer = self.inner.set_len(len);
        let failed = answer.is_err();
        self.tell(FileCall::Resize, failed);
        answer
    }

    fn sync(&mut self) -> Result<(), DeviceFault> {
        let answer = self.inner.sync();
        let failed = answer.is_err();
        self.tell(FileCall::Sync, failed);
        answer
    }
}

impl<'a, R: Read, P: Watch> Read for Watched<'a, R, P> {
    ghost remaining = { λ w. R.remaining w };

    fn read(&mut self, buf: &mut [u8]) -> io::Result<usize> {
        let answer = self.inner.read(buf);
        let failed = is_failed(&answer);
        self.tell(FileCall::Read, failed);
        self.watch.advance(FileCall::Read, count_of(&answer));
        answer
    }
}

impl<'a, W: Write, P: Watch> Write for Watched<'a, W, P> {
    ghost contents = { λ w. W.contents w };

    fn write(&mut self, buf: &[u8]) -> io::Result<usize> {
        self.watch.clear();
        let answer = self.inner.write(buf);
        let failed = is_failed(&answer);
        self.tell(FileCall::Write, failed);
        answer
    }

    fn flush(&mut self) -> io::Result<()> {
        let answer = self.inner.flush();
        let failed = answer.is_err();
        self.tell(FileCall::Write, failed);
        answer
    }
}

/// Whether a call failed, and is not to be made again.
fn is_failed(answer: &io::Result<usize>) -> bool {
    match answer {
        Ok(_) => false,
        Err(error) => error.kind() != ErrorKind::Interrupted,
    }
}

/// How many bytes a read gave.
fn count_of(answer: &io::Result<usize>) -> u64 {
    match answer {
        Ok(count) => *count as u64,
        Err(_) => 0,
    }
}
