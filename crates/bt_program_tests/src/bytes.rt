//! Bytes as words spell them.

use bt_rows::bytes_of;
use std::io;
use std::io::{ErrorKind, Write};

/// Prints the bytes that words spell. Errors: a word spells none.
pub fn print(rt: &HostRuntime, words: &[String]) -> io::Result<()> {
    for word in words {
        let Some(bytes) = bytes_of(rt.alloc(), word.as_str())? else {
            return Err(io::Error::from(ErrorKind::InvalidInput));
        };
        rt.stdout().write_all(&bytes)?;
    }
    Ok(())
}
