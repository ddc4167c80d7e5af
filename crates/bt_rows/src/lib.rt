//! What the programs of rows share: rows from standard input, the words of a row, the bytes that a word
//! spells, and answers.
#![tactic(auto)]

mod answers;
mod bytes;
mod noted;
mod words;

pub use answers::{Rows, is_comment, not_understood, print_answers, put, tell, whole_answer};
pub use bytes::{
    Hexadecimal, Spelling, bytes_of, push_digest, push_hex, push_run, push_shown, range_of,
};
pub use noted::NotedWords;
pub use words::{RowError, Words};
