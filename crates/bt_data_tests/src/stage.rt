//! What the rows so far have made, and the first word of a row.

use crate::bencode::bencode_row;
use crate::builder::builder_row;
use crate::digest::digest_row;
use crate::make::make_row;
use crate::memory::memory_row;
use crate::names::{Names, Words};
use crate::shares::part_row;
use crate::torrent::{laws_row, texts_row, torrent_row};
use crate::tree::tree_row;
use bt_meta::{Made, Torrent};
use bt_rows::{Rows, Spelling, not_understood};
use bt_tree::{Plain, RootBuilder};
use std::alloc::{AllocError, Global};

/// What the rows work on.
#[derive(Drop)]
pub struct Stage {
    names: Names,
    objects: Objects,
}

/// What calls have made, for later calls.
#[derive(Drop)]
pub struct Objects {
    pub builder: Option<RootBuilder<Plain>>,
    /// The files that the next torrent is made of.
    pub files: Vec<Made>,
    /// The torrent that was read last.
    pub torrent: Option<Torrent>,
}

impl Stage {
    pub fn new(alloc: Global) -> Self {
        Stage {
            names: Names::new(alloc),
            objects: Objects {
                builder: None,
                files: Vec::new(alloc),
                torrent: None,
            },
        }
    }
}

impl Rows for Stage {
    fn answer(&mut self, alloc: Global, row: &str) -> Result<String, AllocError> {
        match row.strip_prefix("let ") {
            Some(rest) => let_row(alloc, &mut self.names, row, rest),
            None => call_row(alloc, &self.names, &mut self.objects, row),
        }
    }
}

/// Gives bytes a name.
fn let_row(alloc: Global, names: &mut Names, row: &str, words: &str) -> Result<String, AllocError> {
    let (name, word) = words.split_once(' ').unwrap_or((words, ""));
    let Some(bytes) = names.spelled(alloc, word)? else {
        return not_understood(alloc, row);
    };
    let count = bytes.len();
    names.add(alloc, name, bytes)?;
    format!(in alloc; "{count} bytes")
}

fn call_row(
    alloc: Global,
    names: &Names,
    objects: &mut Objects,
    row: &str,
) -> Result<String, AllocError> {
    let mut out = String::new(alloc);
    let mut words = Words::new(names, row);
    named_row(alloc, objects, &mut words, &mut out)?;
    if words.are_read() {
        return Ok(out);
    }
    not_understood(alloc, row)
}

fn named_row(
    alloc: Global,
    objects: &mut Objects,
    words: &mut Words,
    out: &mut String,
) -> Result<(), AllocError> {
    match words.word() {
        "bencode" => bencode_row(alloc, words, out),
        "tree" => tree_row(alloc, words, out),
        "digest" => digest_row(alloc, words, out),
        "part" => part_row(alloc, words, out),
        name => object_row(alloc, objects, name, words, out),
    }
}

/// The rows of what is kept for later calls, and those without a word. One match for all rows costs more proof.
fn object_row(
    alloc: Global,
    objects: &mut Objects,
    name: &str,
    words: &mut Words,
    out: &mut String,
) -> Result<(), AllocError> {
    match name {
        "builder" => builder_row(alloc, &mut objects.builder, words, out),
        "torrent" => torrent_row(alloc, &mut objects.torrent, words, out),
        "make" => make_row(alloc, objects, words, out),
        "memory" => memory_row(alloc, objects, words, out),
        "texts" => texts_row(out),
        "laws" => laws_row(out),
        _ => {
            words.are_wrong();
            Ok(())
        }
    }
}
