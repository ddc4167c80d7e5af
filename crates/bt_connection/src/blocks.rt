//! The messages with a whole block among the bytes that wait in a `ReadAhead`. These bytes are given on at once, and
//! the blocks in them are digested ahead of time.
ghost use Rattle.std.specs.Prelude.{◌≡◌, ◌↔◌, [], ◌∷◌, ◌++◌, length, take, Contains, IsTrue, IfSome};
ghost use Rattle.bt_tree.specs.Limits.{full_block_length};
ghost use Rattle.bt_connection.specs.declared.blocks.TheConstants.{COUNT};

use arrayvec::ArrayVec;
use bt_devices::DigestCache;
use bt_tree::BLOCK_LEN;
use bt_wire::frames::PIECE_HEAD_LEN;
use std::marker::Model;

/// How many messages with a whole block an `AheadRoom` has room for, and how many blocks are digested together.
const COUNT: usize = 8;

/// How many blocks there have to be at least for that. Eight are digested in any case, and those that are missing
/// cost as much as the others.
const FEWEST: usize = 5;

/// Where the first eight messages with a whole block begin. For each it is kept how many bytes are left from there to
/// the end of all bytes that wait: so nothing changes when bytes in front are given.
#[derive(Drop)]
pub(crate) struct Blocks {
    lefts: ArrayVec<usize, COUNT>,
}

impl Model for Blocks {
    ghost use Rattle.std.specs.Prelude.{ℕ, List};

    ghost Value = { List ℕ };

    ghost view = { λ b. b.lefts.items };
}

impl Blocks {
    pub(crate) fn new() -> Self
        ensures { result ≡ [] }
    {
        Blocks {
            lefts: ArrayVec::new(),
        }
    }

    /// Notes where one more message begins, behind those that are known. Where eight are known, nothing is done.
    pub(crate) fn push(&mut self, left: usize)
        ensures { self.new ≡ take COUNT (self.old ++ left ∷ []) }
    {
        if !self.lefts.is_full() {
            self.lefts.push(left);
        }
    }

    /// Whether one of the messages begins where `left` bytes are left.
    pub(crate) fn begin_at(&self, left: usize) -> bool
        ensures { IsTrue result ↔ Contains self.now left }
    {
        self.lefts.as_slice().contains(&left)
    }

    /// The block of the message of this number, counted from 0; that of the last known message where there are fewer.
    /// None where no message is known.
    fn block<'a>(&self, number: usize, bytes: &'a [u8]) -> Option<&'a [u8]>
        ensures { IfSome result (λ block. length block.now ≡ full_block_length) }
    {
        let lefts = self.lefts.as_slice();
        let last = lefts.len().checked_sub(1)?;
        let left = *lefts.get(number.min(last))?;
        let begin = bytes.len().checked_sub(left)? + PIECE_HEAD_LEN;
        bytes.get(begin..)?.get(..BLOCK_LEN)
    }

    /// Has the cache digest the blocks together, where five at least are known and the cache is due for more. In
    /// place of blocks that are missing to eight the last one is digested again. `bytes` end where the bytes ended in
    /// which the messages were noted.
    pub(crate) fn fill(&self, cache: &mut DigestCache, bytes: &[u8]) {
        if self.lefts.len() < FEWEST || !cache.is_due() {
            return;
        }
        let _ = self.give(cache, bytes);
    }

    /// Has the cache digest eight blocks. None where one of them does not lie in the bytes.
    fn give(&self, cache: &mut DigestCache, bytes: &[u8]) -> Option<()> {
        cache.fill(&[
            self.block(0, bytes)?,
            self.block(1, bytes)?,
            self.block(2, bytes)?,
            self.block(3, bytes)?,
            self.block(4, bytes)?,
            self.block(5, bytes)?,
            self.block(6, bytes)?,
            self.block(7, bytes)?,
        ]);
        Some(())
    }
}
