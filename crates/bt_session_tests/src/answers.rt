//! What events answer, in words.

use bt_book::{BlockId, PeerKey};
use bt_machine::{
    AdoptError, Answer, ConnectError, EngineError, FlushError, Frame, Note, Output, RestartError,
    Why,
};
use bt_rows::push_hex;
use bt_store::Adopted;
use bt_wire::{Message, fits, write_message};
use std::alloc::{AllocError, Global};
use std::fmt::Write;

/// Adds what an event answers.
pub fn tell_answer(alloc: Global, out: &mut String, answer: &Answer) -> Result<(), AllocError> {
    match answer {
        Answer::Connected(told) => tell_connected(alloc, out, told),
        Answer::Fed(told) => tell_done(out, "fed\n", told),
        Answer::Stepped(told) => tell_stepped(alloc, out, told),
        Answer::Lost(told) => tell_done(out, "done\n", told),
        Answer::Rechoked(told) => tell_rechoked(alloc, out, told),
        Answer::Adopted(told) => tell_adopted(out, told),
        Answer::Flushed(told) => tell_flushed(out, told),
        Answer::Restarted(told) => tell_restarted(out, told),
    }
}

fn tell_connected(
    alloc: Global,
    out: &mut String,
    told: &Result<(PeerKey, Output), ConnectError>,
) -> Result<(), AllocError> {
    match told {
        Ok((key, output)) => {
            writeln!(out, "peer {}", key.0)?;
            tell_output(alloc, out, output)
        }
        Err(error) => writeln!(out, "refused {error}"),
    }
}

fn tell_stepped(
    alloc: Global,
    out: &mut String,
    told: &Result<Option<Output>, EngineError>,
) -> Result<(), AllocError> {
    match told {
        Ok(Some(output)) => tell_step(alloc, out, output),
        Ok(None) => out.push_str("none\n"),
        Err(error) => writeln!(out, "refused {error}"),
    }
}

fn tell_step(alloc: Global, out: &mut String, output: &Output) -> Result<(), AllocError> {
    out.push_str("step\n")?;
    tell_output(alloc, out, output)
}

/// An event of a peer that answers nothing else.
pub fn tell_done(
    out: &mut String,
    line: &str,
    told: &Result<(), EngineError>,
) -> Result<(), AllocError> {
    match told {
        Ok(()) => out.push_str(line),
        Err(error) => writeln!(out, "refused {error}"),
    }
}

fn tell_rechoked(
    alloc: Global,
    out: &mut String,
    told: &Result<Output, AllocError>,
) -> Result<(), AllocError> {
    match told {
        Ok(output) => tell_step(alloc, out, output),
        Err(error) => writeln!(out, "refused {error}"),
    }
}

fn tell_adopted(out: &mut String, told: &Result<Adopted, AdoptError>) -> Result<(), AllocError> {
    match told {
        Ok(adopted) => writeln!(
            out,
            "adopted {} of {}, {} faults",
            adopted.marked, adopted.next, adopted.faults
        ),
        Err(error) => writeln!(out, "refused {error}"),
    }
}

fn tell_flushed(out: &mut String, told: &Result<(), FlushError>) -> Result<(), AllocError> {
    match told {
        Ok(()) => out.push_str("done\n"),
        Err(error) => writeln!(out, "refused {error}"),
    }
}

fn tell_restarted(out: &mut String, told: &Result<(), RestartError>) -> Result<(), AllocError> {
    match told {
        Ok(()) => out.push_str("done\n"),
        Err(error) => writeln!(out, "refused {error}"),
    }
}

/// What an event sends and notes, a line each.
fn tell_output(alloc: Global, out: &mut String, output: &Output) -> Result<(), AllocError> {
    tell_sent(alloc, out, &output.send)?;
    if let Some(why) = &output.close {
        tell_closed(out, why)?;
    }
    tell_notes(out, &output.notes)
}

fn tell_sent(alloc: Global, out: &mut String, sent: &[(PeerKey, Frame)]) -> Result<(), AllocError> {
    for (key, frame) in sent {
        write!(out, "send {} ", key.0)?;
        tell_frame(alloc, out, frame)?;
        out.push_str("\n")?;
    }
    Ok(())
}

fn tell_frame(alloc: Global, out: &mut String, frame: &Frame) -> Result<(), AllocError> {
    match frame {
        Frame::Hello(_) => out.push_str("hello"),
        Frame::Message(message) => tell_message(alloc, out, message),
    }
}

fn tell_message(alloc: Global, out: &mut String, message: &Message) -> Result<(), AllocError> {
    if !fits(message) {
        return out.push_str("what does not fit");
    }
    let bytes = write_message(alloc, message)?;
    push_hex(alloc, out, &bytes)
}

fn tell_closed(out: &mut String, why: &Why) -> Result<(), AllocError> {
    out.push_str("close ")?;
    tell_why(out, why)?;
    out.push_str("\n")
}

/// Adds the code, with the fault that it carries.
pub fn tell_why(out: &mut String, why: &Why) -> Result<(), AllocError> {
    out.push_str(why.code())?;
    match why {
        Why::Wire(fault) => write!(out, " {fault}"),
        Why::Proof(fault) => write!(out, " {fault}"),
        _ => Ok(()),
    }
}

fn tell_notes(out: &mut String, notes: &[Note]) -> Result<(), AllocError> {
    for note in notes {
        tell_note(out, *note)?;
    }
    Ok(())
}

fn tell_note(out: &mut String, note: Note) -> Result<(), AllocError> {
    match note {
        Note::Marked(block) => tell_block(out, "marked", block),
        Note::Waiting(block) => tell_block(out, "waiting", block),
        Note::Freed(block) => tell_block(out, "freed", block),
        Note::Damaged(block) => tell_block(out, "damaged", block),
        Note::Device(file) => writeln!(out, "device {file}"),
        Note::Stale => out.push_str("stale\n"),
        Note::Complete(file) => writeln!(out, "complete {file}"),
    }
}

fn tell_block(out: &mut String, word: &str, block: BlockId) -> Result<(), AllocError> {
    writeln!(out, "{word} {} {}", block.file, block.block)
}
