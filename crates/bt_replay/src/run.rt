//! The lines after a script's devices, one after the other.
ghost use Rattle.std.specs.Prelude.{◌≡◌, ◌+◌, ◌^◌, ◌<◌, OnErr, OnOk, IfErr, length};
ghost use Rattle.std.specs.Io.KnownBytes.{Appends};
ghost use Rattle.bt_session.specs.Failures.{OnlyAfterFailure};
ghost use Rattle.bt_replay.specs.Run.{EndsAtLine, EndsEarly, HasRun, HasRunOne, lines_in};

use crate::event::told;
use crate::fault::ReplayFault;
use crate::field::cut;
use crate::line::line_in;
use bt_disk::Disk;
use bt_engine::Engine;
use bt_session::WatchedWriter;
use bt_tree::NodeHash;
use std::alloc::Global;

/// Does what the lines ask for, one after the other, and writes what tells of each as it is done; at the end the
/// writer passes on all that it holds. The first of them has this number.
///
/// Errors, after which no further line is done: `Line` where a line can't stand there; out of memory; `Write` where
/// the writer failed.
pub fn run_all<D: Disk + Drop, H: NodeHash, W: WatchedWriter>(
    alloc: Global,
    engine: &mut Engine<D, H>,
    hash: H,
    handshake: &[u8],
    lines: Option<&[u8]>,
    number: u64,
    writer: &mut W,
) -> Result<(), ReplayFault>
    requires { number + length (lines_in lines) < 2 ^ 64 }
    ensures done { OnOk result (HasRun D.conduct H.digest handshake.now engine.old
        (lines_in lines.entry) (W.contents writer.old) (W.contents writer.new) engine.new) }
    ensures ended { IfErr result (EndsEarly D.conduct H.digest handshake.now engine.old
        number (lines_in lines.entry) (W.contents writer.old) (W.contents writer.new)) }
    ensures write_fault { IfErr result (OnlyAfterFailure ReplayFault.Write
        (W.has_failed writer.new)) }
    ensures flushed { OnOk result (W.is_flushed writer.new) }
{
    run_lines(alloc, engine, hash, handshake, lines, number, writer)?;
    match writer.pass_on() {
        Ok(()) => Ok(()),
        Err(_) => Err(ReplayFault::Write),
    }
}

/// Does what the lines ask for, one after the other, and writes what tells of each as it is done. The first
/// of them has this number.
fn run_lines<D: Disk + Drop, H: NodeHash, W: WatchedWriter>(
    alloc: Global,
    engine: &mut Engine<D, H>,
    hash: H,
    handshake: &[u8],
    lines: Option<&[u8]>,
    number: u64,
    writer: &mut W,
) -> Result<(), ReplayFault>
    requires { number + length (lines_in lines) < 2 ^ 64 }
    ensures done { OnOk result (HasRun D.conduct H.digest handshake.now engine.old
        (lines_in lines.entry) (W.contents writer.old) (W.contents writer.new) engine.new) }
    ensures ended { IfErr result (EndsEarly D.conduct H.digest handshake.now engine.old
        number (lines_in lines.entry) (W.contents writer.old) (W.contents writer.new)) }
    ensures write_fault { IfErr result (OnlyAfterFailure ReplayFault.Write
        (W.has_failed writer.new)) }
{
    let mut rest = lines;
    let mut number = number;
    'lines: while let Some(text) = rest {
        let (line, more) = cut(text, b'\n');
        run_line(alloc, engine, hash, handshake, line, number, writer)?;
        rest = more;
        number += 1;
    }
    Ok(())
}

/// Does what one line asks for, and writes what tells of it.
fn run_line<D: Disk + Drop, H: NodeHash, W: WatchedWriter>(
    alloc: Global,
    engine: &mut Engine<D, H>,
    hash: H,
    handshake: &[u8],
    line: &[u8],
    number: u64,
    writer: &mut W,
) -> Result<(), ReplayFault>
    ensures done { OnOk result (HasRunOne D.conduct H.digest handshake.now engine.old
        line.now (W.contents writer.old) (W.contents writer.new) engine.new) }
    ensures ended { IfErr result (EndsAtLine handshake.now number line.now
        (W.contents writer.old) (W.contents writer.new)) }
    ensures write_fault { IfErr result (OnlyAfterFailure ReplayFault.Write
        (W.has_failed writer.new)) }
{
    let Some(spelled) = line_in(alloc, line)? else {
        return Err(ReplayFault::Line(number));
    };
    let Some(text) = told(alloc, engine, hash, handshake, &spelled)? else {
        return Err(ReplayFault::Line(number));
    };
    write_text(writer, text.as_str())
}

/// Writes a text.
fn write_text<W: WatchedWriter>(writer: &mut W, text: &str) -> Result<(), ReplayFault>
    ensures text { OnOk result (Appends (W.contents writer.old) (W.contents writer.new) text.now) }
    ensures fault { IfErr result (λ fault. fault ≡ ReplayFault.Write) }
    ensures failed { OnErr result (W.has_failed writer.new) }
{
    match writer.write_whole(text.as_bytes()) {
        Ok(()) => Ok(()),
        Err(_) => Err(ReplayFault::Write),
    }
}
