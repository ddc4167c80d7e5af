//! The lines that tell how it ended with each connection that was served.
ghost use Rattle.std.specs.Prelude.{◌≡◌, ◌⊎◌, ◌++◌, Ok, Err, IfErr, OnOk, string_bytes};
ghost use Rattle.std.specs.Io.KnownBytes.{Appends};
ghost use Rattle.bt_check.specs.Fault.{device, out_of_memory};
ghost use Rattle.bt_together.specs.ServedLines.{gone_line, served_line};

use bt_check::{Fault, print};
use bt_session::{PeerEnd, SessionEnd, end_text};
use std::alloc::{AllocError, Global};
use std::io::Write;

/// Writes the line of a connection: its number, and how it ended. Errors: the writer failed, or out of memory.
pub fn tell_served<W: Write>(
    alloc: Global,
    number: u64,
    end: PeerEnd,
    writer: &mut W,
) -> Result<(), Fault>
    ensures told { OnOk result
        (Appends (W.contents writer.old) (W.contents writer.new) (served_line number end)) }
    ensures fault { IfErr result (λ fault. (fault ≡ device) ⊎ (fault ≡ out_of_memory)) }
{
    let mut line = String::new(alloc);
    push_line(&mut line, number, end)?;
    print(writer, line.as_str())
}

/// Adds the line of a connection to a text. Errors: out of memory.
fn push_line(line: &mut String, number: u64, end: PeerEnd) -> Result<(), AllocError>
    ensures { OnOk result (string_bytes line.new ≡ string_bytes line.old
        ++ served_line number end) }
{
    use std::fmt::Write;
    let end = end_text(end);
    writeln!(line, "served {number} {end}")
}

/// Writes the line of a connection that goes, where it has a number: 0 is none. `before` tells how that went for the
/// lines before. Where one of these could not be written, nothing is, and its fault is given again.
pub(crate) fn tell_gone<W: Write>(
    alloc: Global,
    before: Result<(), Fault>,
    number: u64,
    end: SessionEnd,
    writer: &mut W,
) -> Result<(), Fault>
    ensures before { OnOk result (before ≡ Ok tt) }
    ensures text { OnOk result
        (Appends (W.contents writer.old) (W.contents writer.new) (gone_line number end)) }
    ensures fault { IfErr result
        (λ fault. (fault ≡ device) ⊎ (fault ≡ out_of_memory) ⊎ (before ≡ Err fault)) }
{
    before?;
    if number == 0 {
        return Ok(());
    }
    tell_served(alloc, number, PeerEnd::Session(end), writer)
}
