//! The hints that a log's device has.

use crate::bytes::tell_bytes;
use crate::device::TestDisk;
use bt_disk::MemoryDisk;
use bt_hashreq::HashKey;
use bt_resume::{Hints, LentHint, LogError, ResumeLog};
use bt_rows::{RowError, push_hex, tell};
use bt_tree::Hash32;
use std::alloc::{AllocError, Global};
use std::fmt::Write;

/// How many hints a log's device has, and then each, in a line of its own. A copy of its bytes is read.
pub fn tell_log(
    alloc: Global,
    disk: &TestDisk,
    infohash: Hash32,
    out: &mut String,
) -> Result<(), RowError> {
    let bytes = Vec::from_slice(alloc, disk.bytes())?;
    match ResumeLog::attach(alloc, MemoryDisk::new(alloc, bytes), infohash) {
        Ok(log) => tell_hints(alloc, out, log.hints()),
        Err(refused) => tell_refusal(out, refused.cause),
    }
}

/// In which format a log's device goes on. A copy of its bytes is read.
pub fn tell_format(
    alloc: Global,
    disk: &TestDisk,
    infohash: Hash32,
    out: &mut String,
) -> Result<(), RowError> {
    let bytes = Vec::from_slice(alloc, disk.bytes())?;
    match ResumeLog::attach(alloc, MemoryDisk::new(alloc, bytes), infohash) {
        Ok(log) => Ok(write!(out, "format {}", log.format())?),
        Err(refused) => tell_refusal(out, refused.cause),
    }
}

/// Why a log is refused.
pub fn tell_refusal(out: &mut String, cause: LogError) -> Result<(), RowError> {
    if cause == LogError::OutOfMemory {
        return Err(RowError::Memory(AllocError));
    }
    Ok(write!(out, "refused {cause}")?)
}

fn tell_hints(alloc: Global, out: &mut String, hints: &Hints) -> Result<(), RowError> {
    write!(out, "{} hints", hints.len())?;
    for hint in hints.iter() {
        tell_hint(alloc, out, hint)?;
    }
    Ok(())
}

fn tell_hint(alloc: Global, out: &mut String, hint: LentHint<'_>) -> Result<(), RowError> {
    match hint {
        LentHint::Proof(key, digests) => tell_proof(alloc, out, &key, digests),
        LentHint::Marks { file, first, count } => {
            Ok(write!(out, "\nmarks {file} {first} {count}")?)
        }
    }
}

fn tell_proof(
    alloc: Global,
    out: &mut String,
    key: &HashKey,
    digests: &[Hash32],
) -> Result<(), RowError> {
    tell(out, "\nproof ")?;
    push_hex(alloc, out, &key.root)?;
    tell_numbers(out, key)?;
    tell_bytes(alloc, out, digests.as_flattened())
}

fn tell_numbers(out: &mut String, key: &HashKey) -> Result<(), RowError> {
    let HashKey {
        root: _,
        base,
        index,
        length,
        layers,
    } = key;
    Ok(write!(out, " {base} {index} {length} {layers} ")?)
}
