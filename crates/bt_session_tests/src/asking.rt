//! Sessions with a peer that answers only what it has got.

use crate::engine::TestEngine;
use crate::sessions::{tell_end, tell_rest};
use bt_machine::ConnectError;
use bt_rows::bytes_of;
use bt_session::{SessionEnd, run_session};
use std::alloc::{AllocError, Global};
use std::cell::RefCell;
use std::io::{self, Error, ErrorKind, Read, Write};

/// The most turns of a session.
const TURNS: u64 = 1000;

/// The bytes that were written so far, which a reader and a writer share.
type Line = RefCell<Vec<u8>>;

/// What the peer has to have got, last of all, and what it answers then.
#[derive(Drop)]
struct Exchange {
    question: Vec<u8>,
    answer: Vec<u8>,
}

/// Gives one answer after the other, each at once, where its question is the last thing that was written; else it fails.
/// Behind the last it is at its end.
#[derive(Drop)]
struct AnswerReader<'a> {
    line: &'a Line,
    exchanges: Vec<Exchange>,
    next: usize,
}

impl AnswerReader<'_> {
    /// How many answers were not given.
    fn left(&self) -> usize {
        self.exchanges.len().saturating_sub(self.next)
    }
}

impl Read for AnswerReader<'_> {
    fn read(&mut self, buffer: &mut [u8]) -> io::Result<usize> {
        let Some(exchange) = self.exchanges.get(self.next) else {
            return Ok(0);
        };
        let guard = self.line.try_borrow()?;
        let answer = exchange.answer.as_slice();
        if !(*guard).ends_with(&exchange.question) || answer.len() > buffer.len() {
            return Err(Error::from(ErrorKind::ConnectionReset));
        }
        buffer[..answer.len()].copy_from_slice(answer);
        self.next += 1;
        Ok(answer.len())
    }
}

/// Keeps what is written.
#[derive(Drop)]
struct QuestionWriter<'a> {
    line: &'a Line,
}

impl Write for QuestionWriter<'_> {
    fn write(&mut self, bytes: &[u8]) -> io::Result<usize> {
        let mut guard = self.line.try_borrow_mut()?;
        let line = &mut *guard;
        line.extend_from_slice(bytes)?;
        Ok(bytes.len())
    }

    fn flush(&mut self) -> io::Result<()> {
        Ok(())
    }
}

/// Runs a session until all files are complete, with a peer that has these exchanges, and tells of it.
pub fn asking_row(
    alloc: Global,
    engine: &mut TestEngine,
    words: &str,
    out: &mut String,
) -> Result<(), AllocError> {
    match exchanges_of(alloc, words)? {
        Some(exchanges) => asking(alloc, engine, exchanges, out),
        None => out.push_str("no session\n"),
    }
}

/// The exchanges of words, each a question and its answer. None where they are none.
fn exchanges_of(alloc: Global, words: &str) -> Result<Option<Vec<Exchange>>, AllocError> {
    let mut exchanges = Vec::new(alloc);
    let mut rest = words.split_whitespace();
    for _ in 0..words.len() {
        let Some(question) = rest.next() else {
            break;
        };
        match exchange_of(alloc, question, rest.next().unwrap_or(""))? {
            Some(exchange) => exchanges.push(exchange)?,
            None => return Ok(None),
        }
    }
    Ok(Some(exchanges))
}

fn exchange_of(
    alloc: Global,
    question: &str,
    answer: &str,
) -> Result<Option<Exchange>, AllocError> {
    let Some(question) = bytes_of(alloc, question)? else {
        return Ok(None);
    };
    match bytes_of(alloc, answer)? {
        Some(answer) => Ok(Some(Exchange { question, answer })),
        None => Ok(None),
    }
}

fn asking(
    alloc: Global,
    engine: &mut TestEngine,
    exchanges: Vec<Exchange>,
    out: &mut String,
) -> Result<(), AllocError> {
    let line = RefCell::new(Vec::new(alloc));
    let mut reader = AnswerReader {
        line: &line,
        exchanges,
        next: 0,
    };
    let end = end_of(alloc, engine, &mut reader);
    let left = reader.left();
    drop(reader);
    let written = line.into_inner();
    match end {
        Some(end) => {
            tell_end(out, &end)?;
            tell_rest(alloc, engine, left, &written, out)
        }
        None => out.push_str("a peer is there\n"),
    }
}

/// How a session ends; none, where a peer is there before.
fn end_of(
    alloc: Global,
    engine: &mut TestEngine,
    reader: &mut AnswerReader<'_>,
) -> Option<Result<SessionEnd, ConnectError>> {
    if engine.peers() != 0 {
        return None;
    }
    let mut writer = QuestionWriter { line: reader.line };
    Some(run_session(alloc, engine, reader, &mut writer, true, TURNS))
}
