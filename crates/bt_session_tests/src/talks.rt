//! Conversations, and the torrent that they are of.

use crate::talk::talk_row;
use bt_meta::{Torrent, read_info};
use bt_rows::{RowError, Words, whole_answer};
use std::alloc::{AllocError, Global};
use std::fmt::Write;

/// What the rows so far have made.
#[derive(Drop)]
pub struct Talks {
    pub torrent: Option<Torrent>,
}

impl Talks {
    pub fn new() -> Self {
        Talks { torrent: None }
    }

    /// Adds what a row answers. What is no row says so.
    pub fn answer(&mut self, alloc: Global, row: &str, out: &mut String) -> Result<(), AllocError> {
        let mut words = Words::new(row);
        let answer = self.row(alloc, &mut words);
        let answer = whole_answer(alloc, row, &words, answer)?;
        writeln!(out, "{answer}")
    }

    fn row(&mut self, alloc: Global, words: &mut Words) -> Result<String, RowError> {
        match words.word() {
            "info" => self.info_row(alloc, words),
            "talk" => self.talk_row(alloc, words),
            _ => Err(RowError::Unread),
        }
    }

    /// Reads the torrent of an info dictionary.
    fn info_row(&mut self, alloc: Global, words: &mut Words) -> Result<String, RowError> {
        let bytes = words.bytes(alloc)?;
        Ok(self.read(alloc, &bytes)?)
    }

    fn read(&mut self, alloc: Global, bytes: &[u8]) -> Result<String, AllocError> {
        match read_info(alloc, bytes) {
            Ok(torrent) => {
                let count = torrent.files().len();
                self.torrent = Some(torrent);
                format!(in alloc; "{count} files")
            }
            Err(error) => format!(in alloc; "{error}"),
        }
    }

    fn talk_row(&self, alloc: Global, words: &mut Words) -> Result<String, RowError> {
        match &self.torrent {
            Some(torrent) => talk_row(alloc, torrent, words),
            None => Err(RowError::Unread),
        }
    }
}
