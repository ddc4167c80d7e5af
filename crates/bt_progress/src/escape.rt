//! Text that may come from a stranger, as it is told on standard error.
ghost use Rattle.std.specs.Prelude.{◌≡◌, ◌++◌, IfOk, OnOk, string_bytes};
ghost use Rattle.std.specs.Io.KnownBytes.{Appends};
ghost use Rattle.bt_progress.specs.Escape.{char_of_lines, escaped_char, escaped_lines_text, escaped_text, is_direction, is_escaped, is_separator};

use std::alloc::{AllocError, Global};
use std::fmt::Write;
use std::io;

/// A text as it is told: a control character, a separator of lines and a character that sets the direction of
/// text by its number, as `\u{202e}`, and all others as they are.
pub fn escaped(alloc: Global, text: &str) -> Result<String, AllocError>
    ensures { IfOk result (λ told. string_bytes told ≡ escaped_text text.now) }
{
    let mut told = String::new(alloc);
    for letter in text.chars() {
        push_escaped(&mut told, letter)?;
    }
    Ok(told)
}

/// A text of several lines as it is told: as [`escaped`] has it, but line feeds stay as they are.
pub fn escaped_lines(alloc: Global, text: &str) -> Result<String, AllocError>
    ensures { IfOk result (λ told. string_bytes told ≡ escaped_lines_text text.now) }
{
    let mut told = String::new(alloc);
    for letter in text.chars() {
        push_of_lines(&mut told, letter)?;
    }
    Ok(told)
}

/// Writes a text of several lines as [`escaped_lines`] has it, a character at a time, so that it takes no memory.
/// Errors: a write failed, and a part of the text may be written.
pub fn write_escaped_lines<W: io::Write>(writer: &mut W, text: &str) -> io::Result<()>
    ensures { OnOk result
        (Appends (W.contents writer.old) (W.contents writer.new) (escaped_lines_text text.now)) }
{
    for letter in text.chars() {
        write_of_lines(writer, letter)?;
    }
    Ok(())
}

/// Writes a character of a text of several lines as it is told.
#[tactic(auto, unfolding(crate::specs::Escape::char_of_lines, crate::specs::Escape::escaped_char))]
fn write_of_lines<W: io::Write>(writer: &mut W, letter: char) -> io::Result<()>
    ensures { OnOk result (Appends (W.contents writer.old) (W.contents writer.new)
        (char_of_lines letter)) }
{
    if letter != '\n' && is_escaped(letter) {
        write!(writer, "\\u{{{:x}}}", letter as u32)
    } else {
        write!(writer, "{letter}")
    }
}

/// Whether a text of several lines is told as it is: none of its characters is told by its number.
pub fn is_told_as_it_is(text: &str) -> bool {
    text.chars()
        .all(|letter| letter == '\n' || !is_escaped(letter))
}

/// Adds a character of a text of several lines as it is told.
#[tactic(auto, unfolding(crate::specs::Escape::char_of_lines))]
fn push_of_lines(told: &mut String, letter: char) -> Result<(), AllocError>
    ensures { OnOk result (string_bytes told.new ≡ string_bytes told.old ++ char_of_lines letter) }
{
    if letter == '\n' {
        told.push(letter)
    } else {
        push_escaped(told, letter)
    }
}

/// Adds a character as it is told.
#[tactic(auto, unfolding(crate::specs::Escape::escaped_char))]
fn push_escaped(told: &mut String, letter: char) -> Result<(), AllocError>
    ensures { OnOk result (string_bytes told.new ≡ string_bytes told.old ++ escaped_char letter) }
{
    if is_escaped(letter) {
        write!(told, "\\u{{{:x}}}", letter as u32)
    } else {
        told.push(letter)
    }
}

/// Whether a character is told by its number.
fn is_escaped(letter: char) -> bool
    ensures { result ≡ is_escaped letter }
{
    letter.is_control() || is_separator(letter) || is_direction(letter)
}

/// Whether a character ends a line or a paragraph.
fn is_separator(letter: char) -> bool
    ensures { result ≡ is_separator letter }
{
    matches!(letter, '\u{2028}'..='\u{2029}')
}

/// Whether a character sets the direction in which text is read.
fn is_direction(letter: char) -> bool
    ensures { result ≡ is_direction letter }
{
    matches!(
        letter,
        '\u{61c}' | '\u{200e}'..='\u{200f}' | '\u{202a}'..='\u{202e}' | '\u{2066}'..='\u{2069}'
    )
}
