//! What came of a peer's event, in words.

use bt_book::BlockId;
use bt_machine::{Note, Output, Why};
use bt_rows::{RowError, tell};
use std::fmt::Write;

/// What was noted, or why the peer is closed. What is sent is not told.
pub fn tell_output(out: &mut String, output: &Output) -> Result<(), RowError> {
    match &output.close {
        Some(why) => tell_why(out, why),
        None => tell_notes(out, &output.notes),
    }
}

fn tell_why(out: &mut String, why: &Why) -> Result<(), RowError> {
    match why {
        Why::WrongBlock => tell(out, "close C6"),
        Why::UnknownRoot => tell(out, "close C7"),
        Why::Proof(fault) => Ok(write!(out, "close C8 {fault}")?),
        _ => Err(RowError::Unread),
    }
}

fn tell_notes(out: &mut String, notes: &[Note]) -> Result<(), RowError> {
    tell(out, "taken")?;
    for note in notes {
        tell_note(out, note)?;
    }
    Ok(())
}

fn tell_note(out: &mut String, note: &Note) -> Result<(), RowError> {
    match note {
        Note::Marked(block) => tell_block(out, "marked", block),
        Note::Waiting(block) => tell_block(out, "waiting", block),
        Note::Freed(block) => tell_block(out, "freed", block),
        Note::Damaged(block) => tell_block(out, "damaged", block),
        Note::Device(file) => Ok(write!(out, ", device {file}")?),
        Note::Stale => tell(out, ", stale"),
        Note::Complete(file) => Ok(write!(out, ", complete {file}")?),
    }
}

fn tell_block(out: &mut String, word: &str, block: &BlockId) -> Result<(), RowError> {
    Ok(write!(out, ", {word} {} {}", block.file, block.block)?)
}
