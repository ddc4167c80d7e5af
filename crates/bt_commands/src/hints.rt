//! What is told beside results and refusals. Where memory is short, nothing is told; no clause says what is.

use bt_check::Fault;
use bt_meta::Torrent;
use bt_progress::{Watch, size_text};
use std::alloc::{AllocError, Global};

/// At a terminal, and where that was asked for, tells how many bytes all files of a torrent have.
pub fn hint_at_size<P: Watch>(alloc: Global, watch: &P, torrent: &Torrent) {
    if !watch.is_verbose() {
        return;
    }
    if let Ok(text) = all_text(alloc, length_of_all(torrent)) {
        watch.hint(text.as_str());
    }
}

/// At a terminal, and where that was asked for, tells which log is full, where that is what ended the work.
pub fn hint_at_full_log<T, P: Watch>(
    alloc: Global,
    watch: &P,
    log: Option<&str>,
    outcome: &Result<T, Fault>,
) {
    if let (Some(path), Err(Fault::LogFull)) = (log, outcome) {
        if watch.is_verbose() {
            hint_at_length(alloc, watch, path);
        }
    }
}

/// Tells that a log has no room for what is known now.
fn hint_at_length<P: Watch>(alloc: Global, watch: &P, path: &str) {
    if let Ok(text) = format!(in alloc; "{path} is as long as a log may be") {
        watch.hint(text.as_str());
    }
}

/// How many bytes all files of a torrent have.
fn length_of_all(torrent: &Torrent) -> u64 {
    let mut bytes: u64 = 0;
    for file in torrent.files() {
        bytes = bytes.saturating_add(file.length);
    }
    bytes
}

fn all_text(alloc: Global, bytes: u64) -> Result<String, AllocError> {
    let size = size_text(alloc, bytes)?;
    format!(in alloc; "{size} in all ({bytes} bytes)")
}
