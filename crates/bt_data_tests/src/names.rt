//! Bytes that rows call by a name.

use bt_rows::NotedWords;
use std::alloc::{AllocError, Global};

/// The words of a row, which spell bytes by names too.
pub type Words<'a> = NotedWords<'a, Names>;

/// Names, with the bytes of each.
#[derive(Drop)]
pub struct Names {
    entries: Vec<(String, Vec<u8>)>,
}

impl Names {
    pub fn new(alloc: Global) -> Self {
        Names {
            entries: Vec::new(alloc),
        }
    }

    pub fn add(&mut self, alloc: Global, name: &str, bytes: Vec<u8>) -> Result<(), AllocError> {
        let name = String::from_str(alloc, name)?;
        self.entries.push((name, bytes))?;
        Ok(())
    }

    /// The bytes of a name, as they were told first.
    pub fn bytes_of(&self, name: &str) -> Option<&[u8]> {
        for (known, bytes) in &self.entries {
            if known.as_str() == name {
                return Some(bytes.as_slice());
            }
        }
        None
    }
}
