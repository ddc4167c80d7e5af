//! Rows from standard input, and what they answer.

use crate::words::{RowError, Words};
use std::alloc::{AllocError, Global};
use std::io;

/// What answers rows, one after the other.
pub trait Rows {
    /// What a row answers, which is no comment.
    fn answer(&mut self, alloc: Global, row: &str) -> Result<String, AllocError>;
}

/// Prints what each row of standard input answers, in a line of its own; comments as they are.
pub fn print_answers<R: Rows + Drop>(rt: &HostRuntime, rows: R) -> io::Result<()> {
    let mut rows = rows;
    let printed = print_lines(rt, &mut rows);
    drop(rows);
    printed
}

fn print_lines<R: Rows>(rt: &HostRuntime, rows: &mut R) -> io::Result<()> {
    for line in rt.lines(rt.alloc()) {
        let line = line?;
        print_answer(rt, rows, line.as_str())?;
    }
    Ok(())
}

fn print_answer<R: Rows>(rt: &HostRuntime, rows: &mut R, row: &str) -> io::Result<()> {
    if is_comment(row) {
        return println!(rt; "{row}");
    }
    let answer = rows.answer(rt.alloc(), row)?;
    println!(rt; "{answer}")
}

/// Whether a row is printed as it is: one that begins with `#`, and an empty one.
pub fn is_comment(row: &str) -> bool {
    row.is_empty() || row.starts_with('#')
}

/// The answer of what is no row. Errors: out of memory.
pub fn not_understood(alloc: Global, row: &str) -> Result<String, AllocError> {
    format!(in alloc; "not understood: {row}")
}

/// The answer of a row of which each word has to be read. What is no row says so. Errors: out of memory.
pub fn whole_answer(
    alloc: Global,
    row: &str,
    words: &Words<'_>,
    answer: Result<String, RowError>,
) -> Result<String, AllocError> {
    match answer {
        Ok(answer) if words.is_at_end() => Ok(answer),
        Ok(_) | Err(RowError::Unread) => not_understood(alloc, row),
        Err(RowError::Failed) => String::from_str(alloc, "failed"),
        Err(RowError::Memory(error)) => Err(error),
    }
}

/// Adds words of the program's own to an answer. Errors: out of memory.
pub fn tell(out: &mut String, text: &str) -> Result<(), RowError> {
    Ok(out.push_str(text)?)
}

/// Puts a value in the place of another. Only here is one dropped that was there, so that no other proof has
/// to do with it.
pub fn put<T: Drop>(place: &mut T, value: T) {
    *place = value;
}
