//! The lines that tell what an event sent and noted.
ghost use Rattle.std.specs.Prelude.{◌≡◌, ◌++◌, OnOk, IfOk, flat_map, string_bytes};
ghost use Rattle.bt_machine.specs.Frames.{CanBeWritten};
ghost use Rattle.bt_replay.specs.Answer.{AllFit, block_line, close_text, frame_words, sent_with, note_line, output_text, send_line};

use bt_book::{BlockId, PeerKey};
use bt_machine::{Frame, Note, Output, Why};
use bt_wire::write_message;
use std::alloc::{AllocError, Global};
use std::fmt::Write;

/// Adds a line for each frame that is sent, then why the peer is closed, where it is, then a line for each
/// note. Errors: out of memory.
pub(crate) fn push_output(
    alloc: Global,
    text: &mut String,
    output: &Output,
) -> Result<(), AllocError>
    requires { AllFit output.now.send }
    ensures { OnOk result (string_bytes text.new ≡ string_bytes text.old
        ++ output_text output.now) }
{
    push_sent(alloc, text, output.send.as_slice())?;
    push_close(text, output.close)?;
    push_notes(text, output.notes.as_slice())
}

/// Adds a line for each frame that is sent.
fn push_sent(alloc: Global, text: &mut String, send: &[(PeerKey, Frame)]) -> Result<(), AllocError>
    requires { AllFit send.now }
    ensures { OnOk result (string_bytes text.new ≡ string_bytes text.old
        ++ flat_map send_line send.now) }
{
    for (key, frame) in send {
        let words = frame_words(alloc, frame)?;
        push_frame(text, *key, words.as_str())?;
    }
    Ok(())
}

/// Adds the line of a frame that is told by these words.
fn push_frame(text: &mut String, key: PeerKey, words: &str) -> Result<(), AllocError>
    ensures { OnOk result (string_bytes text.new ≡ string_bytes text.old
        ++ sent_with key words.now) }
{
    writeln!(text, "send {} {words}", key.0)
}

/// A handshake, or the bytes of a message in hexadecimal.
fn frame_words(alloc: Global, frame: &Frame) -> Result<String, AllocError>
    requires { CanBeWritten frame.now }
    ensures { IfOk result (λ words. string_bytes words ≡ frame_words frame.now) }
{
    match frame {
        Frame::Hello(_) => String::from_str(alloc, "hello"),
        Frame::Message(message) => {
            let bytes = write_message(alloc, message)?;
            hex::encode(alloc, bytes.as_slice())
        }
    }
}

/// Adds why the peer is closed, where it is.
fn push_close(text: &mut String, close: Option<Why>) -> Result<(), AllocError>
    ensures { OnOk result (string_bytes text.new ≡ string_bytes text.old ++ close_text close) }
{
    match close {
        Some(why) => writeln!(text, "close {}", why.code()),
        None => Ok(()),
    }
}

/// Adds a line for each note.
fn push_notes(text: &mut String, notes: &[Note]) -> Result<(), AllocError>
    ensures { OnOk result (string_bytes text.new ≡ string_bytes text.old
        ++ flat_map note_line notes.now) }
{
    for note in notes {
        push_note(text, *note)?;
    }
    Ok(())
}

/// Adds the line of a note.
fn push_note(text: &mut String, note: Note) -> Result<(), AllocError>
    ensures { OnOk result (string_bytes text.new ≡ string_bytes text.old ++ note_line note) }
{
    match note {
        Note::Marked(block) => push_block(text, "marked", block),
        Note::Waiting(block) => push_block(text, "waiting", block),
        Note::Freed(block) => push_block(text, "freed", block),
        Note::Damaged(block) => push_block(text, "damaged", block),
        Note::Device(file) => writeln!(text, "device {file}"),
        Note::Stale => writeln!(text, "stale"),
        Note::Complete(file) => writeln!(text, "complete {file}"),
    }
}

/// Adds a line of a word and a block.
fn push_block(text: &mut String, word: &str, block: BlockId) -> Result<(), AllocError>
    ensures { OnOk result (string_bytes text.new ≡ string_bytes text.old
        ++ block_line word.now block) }
{
    writeln!(text, "{word} {} {}", block.file, block.block)
}
