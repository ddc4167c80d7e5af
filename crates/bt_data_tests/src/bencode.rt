//! Values and their spellings.

use crate::bytes::push_text;
use crate::names::Words;
use bt_bencode::{Value, field, parse, write};
use std::alloc::{AllocError, Global};
use std::fmt::Write;
use std::mem::size_of;

pub fn bencode_row(alloc: Global, words: &mut Words, out: &mut String) -> Result<(), AllocError> {
    match words.word() {
        "parse" => parse_row(alloc, words, out),
        "write" => write_row(alloc, words, out),
        "field" => field_row(alloc, words, out),
        "room" => room_row(alloc, words, out),
        _ => {
            words.are_wrong();
            Ok(())
        }
    }
}

/// The value that a text spells, and whether it is written as the text; or the fault.
fn parse_row(alloc: Global, words: &mut Words, out: &mut String) -> Result<(), AllocError> {
    let text = words.bytes(alloc)?;
    match parse(alloc, &text) {
        Ok(doc) => push_doc(alloc, doc.value(), &text, out),
        Err(error) => write!(out, "{error}"),
    }
}

/// A value, and whether it is written as the text. Where memory is refused it is written once more.
pub fn push_doc(
    alloc: Global,
    value: &Value,
    text: &[u8],
    out: &mut String,
) -> Result<(), AllocError> {
    push_value(out, value)?;
    let written = written_again(alloc, value)?;
    out.push_str(if written.as_slice() == text {
        "; written so"
    } else {
        "; written another way"
    })
}

fn written_again(alloc: Global, value: &Value) -> Result<Vec<u8>, AllocError> {
    match write(alloc, value) {
        Err(AllocError) => write(alloc, value),
        written => written,
    }
}

/// Adds a number as it stands, a string between quotes, and what a list or a dictionary has between brackets.
fn push_value(out: &mut String, value: &Value) -> Result<(), AllocError> {
    match value {
        Value::Int(number) => write!(out, "{number}")?,
        Value::Bytes(bytes) => push_string(out, bytes)?,
        Value::List(items) => {
            out.push('[')?;
            for item in items {
                out.push(' ')?;
                push_value(out, item)?;
            }
            out.push_str(" ]")?;
        }
        Value::Dict(entries) => {
            out.push('{')?;
            for (key, item) in entries {
                out.push(' ')?;
                push_string(out, key)?;
                out.push(' ')?;
                push_value(out, item)?;
            }
            out.push_str(" }")?;
        }
    }
    Ok(())
}

fn push_string(out: &mut String, bytes: &[u8]) -> Result<(), AllocError> {
    out.push('"')?;
    push_text(out, bytes)?;
    out.push('"')
}

/// What a value is written as.
fn write_row(alloc: Global, words: &mut Words, out: &mut String) -> Result<(), AllocError> {
    let value = value_from(alloc, words)?;
    let text = write(alloc, &value)?;
    push_text(out, &text)
}

/// The entry of a key.
fn field_row(alloc: Global, words: &mut Words, out: &mut String) -> Result<(), AllocError> {
    let key = words.bytes(alloc)?;
    let value = value_from(alloc, words)?;
    match field(&value, &key) {
        Some(item) => push_value(out, item),
        None => out.push_str("none"),
    }
}

/// A number, or a dictionary whose entries are words `KEY=NUMBER`, in the order of the words.
fn value_from(alloc: Global, words: &mut Words) -> Result<Value, AllocError> {
    let mut entries = Vec::new(alloc);
    for _ in 0..u64::MAX {
        if words.is_at_end() {
            break;
        }
        let word = words.word();
        match word.split_once('=') {
            Some((key, number)) => push_entry(alloc, &mut entries, key, number_of(number))?,
            None => return Ok(Value::Int(number_of(word))),
        }
    }
    Ok(Value::Dict(entries))
}

fn number_of(word: &str) -> i64 {
    word.parse::<i64>().unwrap_or(i64::MIN)
}

fn push_entry(
    alloc: Global,
    entries: &mut Vec<(Vec<u8>, Value)>,
    key: &str,
    number: i64,
) -> Result<(), AllocError> {
    let key = Vec::from_slice(alloc, key.as_bytes())?;
    entries.push((key, Value::Int(number)))?;
    Ok(())
}

/// Whether the value of a text asks for 16 bytes of memory at most for a byte of the text.
fn room_row(alloc: Global, words: &mut Words, out: &mut String) -> Result<(), AllocError> {
    let text = words.bytes(alloc)?;
    match parse(alloc, &text) {
        Ok(doc) => out.push_str(if room(doc.value()) / 16 <= text.len() {
            "16 bytes to a byte at most"
        } else {
            "more than 16 bytes to a byte"
        }),
        Err(error) => write!(out, "{error}"),
    }
}

/// The memory that was asked for to hold what lies in a value, in bytes.
fn room(value: &Value) -> usize {
    let mut sum: usize = 0;
    match value {
        Value::Int(_) => {}
        Value::Bytes(bytes) => sum = bytes.capacity(),
        Value::List(items) => {
            sum = items.capacity().saturating_mul(size_of::<Value>());
            for item in items {
                sum = sum.saturating_add(room(item));
            }
        }
        Value::Dict(entries) => {
            sum = entries
                .capacity()
                .saturating_mul(size_of::<(Vec<u8>, Value)>());
            for (key, item) in entries {
                sum = sum
                    .saturating_add(key.capacity())
                    .saturating_add(room(item));
            }
        }
    }
    sum
}
