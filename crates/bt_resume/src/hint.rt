//! The hints that a log records: digests that came with a key (BEP 52, "hashes"), and runs of marked blocks.
ghost use Rattle.std.specs.Prelude.{◌↔◌, IsTrue};
ghost use Rattle.bt_resume.specs.Hint.{IsRun, CanBeRead};

use bt_hashreq::{HashKey, digest_count};
use bt_sparse::Digests;
use bt_tree::Hash32;

/// How many blocks a file has at most.
const MAX_BLOCK_COUNT: u64 = 1 << 26;

/// The formats of a log, which spell marks one by one, or as runs.
#[derive(Clone, Copy, Debug, PartialEq, Eq)]
pub enum Format {
    One,
    Two,
}

/// What a log records. It is a hint: whoever reads it proves and reads again before anything is marked.
#[derive(Debug, Drop)]
pub enum Hint {
    /// The digests that came with a key (BEP 52, "hashes"): those of the run, and then those of the uncles.
    Proof(HashKey, Digests),
    /// Blocks of one of the torrent's files were marked: `count` of them, from the block `first` on.
    Marks { file: u32, first: u32, count: u32 },
}

impl Hint {
    /// Whether it can be read back: `to_claim` of `bt_hashreq` makes a claim of a proof's key and digests; a run
    /// of marks has a block at least, and ends within 2^26 blocks.
    pub fn can_be_read(&self) -> bool
        ensures { IsTrue result ↔ CanBeRead self.now }
    {
        match self {
            Hint::Proof(key, digests) => match digest_count(key) {
                Some(count) => digests.as_slice().len() == count as usize,
                None => false,
            },
            Hint::Marks {
                file: _,
                first,
                count,
            } => is_run(*first, *count),
        }
    }
}

/// Whether a run has a block at least, and ends where a file may end.
pub(crate) fn is_run(first: u32, count: u32) -> bool
    ensures { IsTrue result ↔ IsRun first count }
{
    count > 0 && u64::from(first) + u64::from(count) <= MAX_BLOCK_COUNT
}

/// A hint as a log lends it: the digests lie where the log keeps them.
#[derive(Clone, Copy, Debug)]
pub enum LentHint<'a> {
    /// As in `Hint`.
    Proof(HashKey, &'a [Hash32]),
    /// As in `Hint`.
    Marks { file: u32, first: u32, count: u32 },
}
