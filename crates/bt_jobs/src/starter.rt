//! How a part of a check is started, passed the torrent, looked at, ended and waited for.
ghost use Rattle.std.specs.Prelude.{◌≡◌, ℕ, List, ⊤, OnErr, IfOk, OnOk};
ghost use Rattle.std.specs.Io.KnownBytes.{Appends};
ghost use Rattle.bt_jobs.specs.Parts.{Becomes, PartState, looked, newly, passed, told_to_end, waited_for};
ghost use Rattle.bt_jobs.specs.Starts.{Start, start_of};

use crate::start_fault::{StartFault, unstarted};
use std::io::{self, ErrorKind, PipeWriter, Write};
use std::process::{Child, Command, ExitStatus, OpenProcess, Processes, Stdio};

/// A part of a check that was started.
pub trait StartedPart {
    /// That it stands so, by what was done with it.
    ghost stands: { Self → PartState → Type 0 };

    /// Writes a text to its input, and closes that. Errors: it does not take all.
    fn pass(&mut self, text: &[u8]) -> io::Result<()>
        ensures { Becomes stands self.old (passed text.now result) self.new };

    /// How it has ended, if it has. Does not wait for it.
    fn look(&mut self) -> io::Result<Option<ExitStatus>>
        ensures { Becomes stands self.old (looked result) self.new };

    /// Tells it to end at once.
    fn end(&mut self)
        ensures { Becomes stands self.old told_to_end self.new };

    /// Waits until it has ended: how.
    fn join(&mut self) -> io::Result<ExitStatus>
        ensures { Becomes stands self.old (waited_for result) self.new };
}

/// A way to start parts of a check.
pub trait Starter {
    /// What it starts.
    type Part: StartedPart + Drop;

    /// That it started a part so.
    ghost starts: { Self → Start → Self → Type 0 };

    /// Starts a part, which tells by the pipe. Errors: it was not started.
    fn start(&mut self, command: &mut Command, pipe: &PipeWriter) -> Result<Self::Part, StartFault>
        ensures started { OnOk result (starts self.old (start_of command.old) self.new) }
        ensures stands { IfOk result (λ part. Self.Part.stands part
            (newly (start_of command.old))) }
        ensures unstarted { OnErr result (self.new ≡ self.old) };
}

/// A starter of processes of the system.
#[derive(Drop)]
pub struct ProcessStarter<'a, S> {
    system: &'a S,
}

impl<'a, S> ProcessStarter<'a, S> {
    /// A starter of the processes of this system.
    pub fn new(system: &'a S) -> Self {
        ProcessStarter { system }
    }
}

// The kit says nothing of which process a system starts.
impl<'a, S: Processes> Starter for ProcessStarter<'a, S> {
    type Part = Child<S::Started>;

    ghost starts = { λ _ _ _. ⊤ };

    fn start(
        &mut self,
        command: &mut Command,
        pipe: &PipeWriter,
    ) -> Result<Child<S::Started>, StartFault> {
        let output = pipe.try_clone().map_err(|error| unstarted(error.kind()))?;
        command.stdin(Stdio::piped());
        command.stdout(output);
        command.stderr(Stdio::null());
        command
            .spawn(self.system)
            .map_err(|error| unstarted(error.kind()))
    }
}

// Nor of what a process does, or is told.
impl<C: OpenProcess> StartedPart for Child<C> {
    ghost stands = { λ _ _. ⊤ };

    fn pass(&mut self, text: &[u8]) -> io::Result<()> {
        let Some(mut input) = self.stdin.take() else {
            return Err(io::Error::from(ErrorKind::BrokenPipe));
        };
        write_whole(&mut input, text)
    }

    fn look(&mut self) -> io::Result<Option<ExitStatus>> {
        self.try_wait()
    }

    fn end(&mut self) {
        let _ = self.kill();
    }

    fn join(&mut self) -> io::Result<ExitStatus> {
        self.wait()
    }
}

/// Writes a text whole.
fn write_whole<W: Write>(writer: &mut W, text: &[u8]) -> io::Result<()>
    ensures { OnOk result (Appends (W.contents writer.old) (W.contents writer.new) text.now) }
{
    writer.write_all(text)
}
