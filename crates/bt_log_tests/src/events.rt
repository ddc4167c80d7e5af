//! Events of an engine that no peer brings, each by its row, and how far its files are.

use crate::stage::TestEngine;
use bt_machine::{AdoptError, FileReport, FlushError, RestartError};
use bt_rows::{RowError, Words, tell};
use bt_store::Adopted;
use std::fmt::Write;

pub fn flush_row(engine: &mut TestEngine, out: &mut String) -> Result<(), RowError> {
    tell_flushed(out, engine.flush())
}

pub fn tell_flushed(out: &mut String, answer: Result<(), FlushError>) -> Result<(), RowError> {
    match answer {
        Ok(()) => tell(out, "done"),
        Err(cause) => Ok(write!(out, "refused {cause}")?),
    }
}

pub fn restart_row(engine: &mut TestEngine, out: &mut String) -> Result<(), RowError> {
    tell_restarted(out, engine.restart())
}

pub fn tell_restarted(out: &mut String, answer: Result<(), RestartError>) -> Result<(), RowError> {
    match answer {
        Ok(()) => tell(out, "done"),
        Err(cause) => Ok(write!(out, "refused {cause}")?),
    }
}

/// A file is taken in. Where memory is refused, it is taken in once more.
pub fn adopt_row(
    engine: &mut TestEngine,
    words: &mut Words,
    out: &mut String,
) -> Result<(), RowError> {
    let file = words.number()?;
    match engine.adopt(file) {
        Err(AdoptError::OutOfMemory) => tell_adopted(out, engine.adopt(file)),
        answer => tell_adopted(out, answer),
    }
}

fn tell_adopted(out: &mut String, answer: Result<Adopted, AdoptError>) -> Result<(), RowError> {
    match answer {
        Ok(
            Adopted {
                next,
                anchor,
                marked,
                faults,
            },
        ) => Ok(write!(
            out,
            "adopted {marked} of {next}, anchor {anchor}, {faults} faults"
        )?),
        Err(cause) => Ok(write!(out, "refused {cause}")?),
    }
}

/// How far a file is.
pub fn report_row(
    engine: &TestEngine,
    words: &mut Words,
    out: &mut String,
) -> Result<(), RowError> {
    tell_report(engine, words.number()?, out)
}

pub fn tell_report(engine: &TestEngine, file: u32, out: &mut String) -> Result<(), RowError> {
    let Some(report) = engine.report(file) else {
        return Err(RowError::Unread);
    };
    let FileReport {
        blocks,
        marked,
        waiting,
        complete: _,
    } = report;
    Ok(write!(out, "{marked} of {blocks}, {waiting} waiting")?)
}

/// How many peers are connected.
pub fn peers_row(engine: &TestEngine, out: &mut String) -> Result<(), RowError> {
    Ok(write!(out, "{} connected", engine.peers())?)
}
