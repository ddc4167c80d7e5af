//! Writing texts.
ghost use Rattle.std.specs.Prelude.{◌≡◌, OnOk, IfErr};
ghost use Rattle.std.specs.Io.KnownBytes.{Appends};
ghost use Rattle.bt_check.specs.Fault.{device};

use crate::fault::Fault;
use std::io::Write;

/// Writes a text. Errors: a device fault, where it could not be written whole.
pub fn write_text<W: Write>(writer: &mut W, text: &str) -> Result<(), Fault>
    ensures text { OnOk result (Appends (W.contents writer.old) (W.contents writer.new) text.now) }
    ensures fault { IfErr result (λ fault. fault ≡ device) }
{
    match writer.write_all(text.as_bytes()) {
        Ok(()) => Ok(()),
        Err(_) => Err(Fault::Device),
    }
}

/// Writes a text and flushes the writer. Errors: a device fault, where a write or the flush failed; a part of the text
/// may be written then.
pub fn print<O: Write>(writer: &mut O, text: &str) -> Result<(), Fault>
    ensures text { OnOk result (Appends (O.contents writer.old) (O.contents writer.new) text.now) }
    ensures fault { IfErr result (λ fault. fault ≡ device) }
{
    write_text(writer, text)?;
    writer.flush().map_err(|_| Fault::Device)
}
