//! What the rows so far have made, and the first word of a row.

use crate::bodies::{Bodies, bodies_row};
use crate::book::{Requests, book_row};
use crate::bytes::Words;
use crate::cutter::{Stream, cuts_row, cutter_row, new_stream, stream_row};
use crate::key::key_row;
use crate::message::{hello_row, list_row, texts_row, write_row};
use crate::random::{Mix, Random, random_row};
use crate::serve::serve_row;
use crate::tree::{Tree, tree_row};
use bt_book::Book;
use bt_rows::{Hexadecimal, Rows, not_understood};
use std::alloc::{AllocError, Global};

/// What the rows work on.
#[derive(Drop)]
pub struct Stage {
    stream: Stream,
    requests: Requests,
    random: Random,
    tree: Tree,
    bodies: Option<Bodies>,
}

impl Stage {
    pub fn new(alloc: Global) -> Result<Stage, AllocError> {
        let book = Book::new(alloc, &[])?;
        Ok(Stage {
            stream: new_stream(alloc),
            requests: Requests { book },
            random: Random::new(),
            tree: Tree::Empty,
            bodies: None,
        })
    }

    fn row(
        &mut self,
        alloc: Global,
        words: &mut Words,
        out: &mut String,
    ) -> Result<(), AllocError> {
        match words.word() {
            "cutter" => cutter_row(alloc, &mut self.stream, words, out),
            "stream" => stream_row(alloc, words, out),
            "cuts" => cuts_row(alloc, words, out),
            "write" => write_row(alloc, words, out),
            "hello" => hello_row(alloc, words, out),
            "list" => list_row(alloc, words, out),
            "texts" => texts_row(out),
            "book" => book_row(alloc, &mut self.requests, words, out),
            "random" => random_row(&mut self.random, Mix::Many, &mut self.requests, words, out),
            "few" => random_row(&mut self.random, Mix::Few, &mut self.requests, words, out),
            "serve" => serve_row(alloc, words, out),
            "key" => key_row(alloc, words, out),
            "tree" => tree_row(alloc, &mut self.tree, words, out),
            "bodies" => bodies_row(alloc, &mut self.bodies, words, out),
            _ => {
                words.are_wrong();
                Ok(())
            }
        }
    }
}

impl Rows for Stage {
    fn answer(&mut self, alloc: Global, row: &str) -> Result<String, AllocError> {
        let mut out = String::new(alloc);
        let mut words = Words::new(&Hexadecimal, row);
        self.row(alloc, &mut words, &mut out)?;
        if words.are_read() {
            return Ok(out);
        }
        not_understood(alloc, row)
    }
}
