//! What a check found, and its lines.
ghost use Rattle.std.specs.Prelude.{◌≡◌, ◌++◌, ◌⊎◌, ◌&&◌, ◌||◌, IfErr, OnOk, string_bytes};
ghost use Rattle.std.specs.Io.KnownBytes.{Appends};
ghost use Rattle.bt_check.specs.Fault.{device, out_of_memory};
ghost use Rattle.bt_check.specs.Finding.{is_complete_finding};
ghost use Rattle.bt_check.specs.Report.{check_outcome, file_line, finding_line, last_line};

use crate::data_file::Finding;
use crate::display::display_path;
use crate::fault::Fault;
use crate::output::write_text;
use bt_meta::FileEntry;
use std::alloc::{AllocError, Global};
use std::fmt;
use std::io::Write;

/// A file of a torrent, and what a check found of its data file.
#[derive(Clone, Copy)]
pub struct FileFinding<'a> {
    pub file: &'a FileEntry,
    pub finding: Finding,
}

/// What a check found of all files so far: whether each is complete, and whether a call of a device failed.
#[derive(Clone, Copy, Debug, PartialEq, Eq)]
pub struct Summary {
    pub complete: bool,
    pub faulty: bool,
}

impl Summary {
    /// What was found of the files so far and of one more.
    pub fn with(self, finding: Finding) -> Self
        ensures complete { result.complete ≡ (self.complete && is_complete_finding finding) }
        ensures faulty { result.faulty ≡ (self.faulty || finding.faulty) }
    {
        Summary {
            complete: self.complete && finding.is_complete(),
            faulty: self.faulty || finding.faulty,
        }
    }

    /// What a check comes to that found this: the status of the program, or the fault of a device.
    pub fn outcome(self) -> Result<u8, Fault>
        ensures { result ≡ check_outcome self }
    {
        if self.faulty {
            Err(Fault::Device)
        } else if self.complete {
            Ok(0)
        } else {
            Ok(1)
        }
    }
}

/// Writes the line of one file. Errors: a device fault, where it could not be written whole; out of memory.
pub fn write_line<W: Write>(
    alloc: Global,
    file: &FileFinding<'_>,
    writer: &mut W,
) -> Result<(), Fault>
    ensures text { OnOk result
        (Appends (W.contents writer.old) (W.contents writer.new) (file_line file.now)) }
    ensures fault { IfErr result (λ fault. (fault ≡ device) ⊎ (fault ≡ out_of_memory)) }
{
    let path = display_path(alloc, &file.file.path)?;
    let mut line = String::new(alloc);
    push_line(&mut line, file.finding, path.as_str())?;
    write_text(writer, line.as_str())
}

/// Adds the line of a finding.
fn push_line(line: &mut String, finding: Finding, path: &str) -> Result<(), AllocError>
    ensures { OnOk result (string_bytes line.new ≡ string_bytes line.old
        ++ finding_line finding path.now) }
{
    use fmt::Write;
    let Finding { blocks, marked, .. } = finding;
    if finding.longer {
        writeln!(line, "longer {path}")
    } else if finding.is_complete() {
        writeln!(line, "complete {path}")
    } else {
        writeln!(line, "{marked} of {blocks} {path}")
    }
}

/// The last line.
pub fn last_words(complete: bool) -> &'static str
    ensures { result.now ≡ last_line complete }
{
    if complete {
        "complete\n"
    } else {
        "not complete\n"
    }
}
