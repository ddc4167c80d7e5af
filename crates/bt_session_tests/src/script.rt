//! The words of a row that say of a connection what it does.

use crate::member::{Finding, Script, Take};
use bt_rows::{RowError, Words, bytes_of};
use std::alloc::Global;

/// How many bytes may wait where a row does not say it: 4 MiB.
const MOST_HELD: usize = 4_194_304;

/// The round in which it comes, settings, and what its reads find. Errors: `Unread`; out of memory.
pub fn script_of(alloc: Global, words: &mut Words<'_>) -> Result<Script, RowError> {
    let mut script = Script {
        round: words.long()?,
        findings: Vec::new(alloc),
        takes: Vec::new(alloc),
        holds: MOST_HELD,
        memory: 0,
        silent: Vec::new(alloc),
    };
    fill(alloc, &mut script, words)?;
    Ok(script)
}

fn fill(alloc: Global, script: &mut Script, words: &mut Words<'_>) -> Result<(), RowError> {
    for _ in 0..u64::MAX {
        if words.is_at_end() {
            return Ok(());
        }
        let word = words.word();
        match word.split_once('=') {
            Some((name, value)) => set(script, name, value)?,
            None => push_finding(alloc, &mut script.findings, word)?,
        }
    }
    Ok(())
}

/// Makes a setting.
fn set(script: &mut Script, name: &str, value: &str) -> Result<(), RowError> {
    match name {
        "takes" => push_takes(&mut script.takes, value),
        "silent" => push_rounds(&mut script.silent, value),
        "holds" => {
            script.holds = value.parse().or(Err(RowError::Unread))?;
            Ok(())
        }
        "memory" => {
            script.memory = value.parse().or(Err(RowError::Unread))?;
            Ok(())
        }
        _ => Err(RowError::Unread),
    }
}

/// Adds the numbers of rounds.
pub fn push_rounds(rounds: &mut Vec<u64>, value: &str) -> Result<(), RowError> {
    for part in value.split(',') {
        rounds.push(part.parse().or(Err(RowError::Unread))?)?;
    }
    Ok(())
}

fn push_takes(takes: &mut Vec<Take>, value: &str) -> Result<(), RowError> {
    for part in value.split(',') {
        push_take(takes, part)?;
    }
    Ok(())
}

/// Adds what a peer takes, as often as the word says behind a `*`.
fn push_take(takes: &mut Vec<Take>, part: &str) -> Result<(), RowError> {
    let (what, count) = part.split_once('*').unwrap_or((part, "1"));
    let count: u16 = count.parse().or(Err(RowError::Unread))?;
    let take = match what {
        "all" => Take::All,
        "fault" => Take::Fault,
        _ => Take::Most(what.parse().or(Err(RowError::Unread))?),
    };
    for _ in 0..count {
        takes.push(take)?;
    }
    Ok(())
}

/// Adds what a read finds, or what several find.
fn push_finding(alloc: Global, findings: &mut Vec<Finding>, word: &str) -> Result<(), RowError> {
    let finding = match word {
        "block" => Finding::Blocks,
        "interrupted" => Finding::Interrupted,
        "fault" => Finding::Fault,
        "rest" => Finding::Rests,
        _ => return push_bytes(alloc, findings, word),
    };
    findings.push(finding)?;
    Ok(())
}

fn push_bytes(alloc: Global, findings: &mut Vec<Finding>, word: &str) -> Result<(), RowError> {
    if let Some(word) = word.strip_prefix("each:") {
        let bytes = some_bytes(alloc, word)?;
        return push_each(alloc, findings, &bytes);
    }
    findings.push(Finding::Bytes(some_bytes(alloc, word)?))?;
    Ok(())
}

fn some_bytes(alloc: Global, word: &str) -> Result<Vec<u8>, RowError> {
    bytes_of(alloc, word)?.ok_or(RowError::Unread)
}

/// Adds bytes that are found one by one.
fn push_each(alloc: Global, findings: &mut Vec<Finding>, bytes: &[u8]) -> Result<(), RowError> {
    for byte in bytes {
        findings.push(Finding::Bytes(vec![in alloc; *byte; 1]?))?;
    }
    Ok(())
}
