//! A check in parts: what a part has of a file, the lines by which it tells, and how runs are joined.

use crate::bytes::push_text;
use crate::names::Words;
use bt_parts::{Cut, MAX_TOTAL, Part, Run, join_runs, push_line, run_in, share_of};
use std::alloc::{AllocError, Global};
use std::fmt::Write;

pub fn part_row(alloc: Global, words: &mut Words, out: &mut String) -> Result<(), AllocError> {
    match words.word() {
        "share" => share_row(words, out),
        "line" => line_row(alloc, words, out),
        "join" => join_row(alloc, words, out),
        _ => {
            words.are_wrong();
            Ok(())
        }
    }
}

/// The share that a part has of a file.
fn share_row(words: &mut Words, out: &mut String) -> Result<(), AllocError> {
    let index = words.number();
    let count = words.number();
    let total = words.long();
    let place = words.long();
    let blocks = words.number();
    let unit = words.number();
    let Some(part) = Part::new(index, count) else {
        return out.push_str("no part");
    };
    if total > MAX_TOTAL || place >= total || unit == 0 {
        return out.push_str("no share");
    }
    let cut = Cut {
        place,
        blocks,
        unit,
    };
    let share = share_of(part, total, cut);
    let first = if share.is_first { ", first" } else { "" };
    write!(out, "{} to {}{first}", share.from, share.to)
}

/// The line of the run that a line tells.
fn line_row(alloc: Global, words: &mut Words, out: &mut String) -> Result<(), AllocError> {
    let line = words.bytes(alloc)?;
    let Some(run) = run_in(&line) else {
        return out.push_str("no run");
    };
    let mut text = String::new(alloc);
    push_line(&mut text, run)?;
    push_text(out, text.as_bytes())
}

/// What runs come to that are all of a file's, and how many runs of other files stand after them.
fn join_row(alloc: Global, words: &mut Words, out: &mut String) -> Result<(), AllocError> {
    let file = words.number();
    let blocks = words.number();
    let runs = runs_from(alloc, words)?;
    let Some((finding, others)) = join_runs(file, blocks, &runs) else {
        return out.push_str("not joined");
    };
    let longer = if finding.longer { ", longer" } else { "" };
    let faulty = if finding.faulty { ", faulty" } else { "" };
    write!(
        out,
        "{} of {}{longer}{faulty}; {} others",
        finding.marked,
        finding.blocks,
        others.len()
    )
}

/// The runs that the words left tell, a line each.
fn runs_from(alloc: Global, words: &mut Words) -> Result<Vec<Run>, AllocError> {
    let mut runs = Vec::new(alloc);
    for _ in 0..u64::MAX {
        if words.is_at_end() {
            break;
        }
        let line = words.bytes(alloc)?;
        match run_in(&line) {
            Some(run) => runs.push(run)?,
            None => words.are_wrong(),
        }
    }
    Ok(runs)
}
