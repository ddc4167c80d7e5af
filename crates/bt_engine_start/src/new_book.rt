//! A request book that wants all blocks of all files.
ghost use Rattle.std.specs.Prelude.{◌≡◌, ◌≤◌, [], IfOk, true, length, map, replicate};

use bt_book::Book;
use std::alloc::{AllocError, Global};

/// The book of files of which each has its count of blocks, which wants all blocks. Errors: out of memory.
pub(crate) fn new_book(alloc: Global, counts: &[u32]) -> Result<Book, AllocError>
    requires few { length counts.now ≤ 65_536 }
    ensures wanted { IfOk result (λ book. book.wanted ≡ map (λ count. replicate count true)
        counts.now) }
    ensures peers { IfOk result (λ book. book.peers ≡ []) }
{
    Book::wanting_all(alloc, counts)
}
