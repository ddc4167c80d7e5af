//! Blocks that are read and judged by their leaves: those that wait, once their leaf is known, and those that
//! are marked, to see whether they still are right.
ghost use Rattle.std.specs.Prelude.{◌≡◌, ℕ, ◌+◌, ◌-◌, ◌*◌, ◌^◌, ◌<◌, ◌≤◌, List, IfOk, IfErr, length, true, false};
ghost use Rattle.std.specs.List.{range_with_len};
ghost use Rattle.bt_tree.specs.Limits.{full_block_length, max_block_count};
ghost use Rattle.bt_tree.specs.Blocks.{block_count};
ghost use Rattle.bt_store.specs.BlockReads.{BlockRead, IsJudged, right_count, wrong_count, fault_count};
ghost use Rattle.bt_store.specs.Review.{waiting_blocks, marked_blocks};
ghost use Rattle.bt_store.specs.ReviewSteps.{is_chosen, chosen_blocks, forgives, verdict_of, after_verdict, judged_found, tally_of, IsTallyOf, tally_sum, added};

use crate::batches::{BATCH_BLOCKS, BATCH_LEN, BlockFound, digest_batch, read_batch};
use crate::block_states::{BlockState, BlockStates};
use crate::error::StoreError;
use crate::file_store::FileStore;
use bt_disk::Disk;
use bt_sparse::SparseTree;
use bt_tree::{BLOCK_LEN, Hash32, NodeHash};

/// What `settle` did, in blocks.
#[derive(Clone, Copy, Debug, PartialEq, Eq)]
pub struct Settled {
    /// Their bytes were right.
    pub marked: u32,
    /// Their bytes were wrong, and they are missing now.
    pub freed: u32,
    /// Their read failed, and they are missing now.
    pub faults: u32,
}

/// What `recheck` found, in blocks.
#[derive(Clone, Copy, Debug, PartialEq, Eq)]
pub struct Rechecked {
    /// Their bytes were right.
    pub kept: u32,
    /// Their bytes were wrong, and they are missing now.
    pub unmarked: u32,
    /// Their read failed, and they stay marked.
    pub faults: u32,
}

/// Which blocks are read again.
#[derive(Clone, Copy)]
pub(crate) enum Review {
    /// Those that wait and whose leaf is known.
    Waiting,
    /// Those that are marked.
    Marked,
}

impl Review {
    /// Whether a block stays as it is where its read fails.
    fn forgives(self) -> bool
        ensures { result ≡ forgives self }
    {
        match self {
            Review::Waiting => false,
            Review::Marked => true,
        }
    }
}

/// What the read of a block comes to.
#[derive(Clone, Copy)]
pub(crate) enum Verdict {
    Right,
    Wrong,
    Fault,
}

/// How many reads came to each verdict.
#[derive(Clone, Copy)]
pub(crate) struct Tally {
    pub(crate) right: u32,
    pub(crate) wrong: u32,
    pub(crate) faults: u32,
}

impl Tally {
    /// The counts of no reads.
    pub(crate) fn new() -> Tally
        ensures { result ≡ record { right = 0; wrong = 0; faults = 0 } }
    {
        Tally {
            right: 0,
            wrong: 0,
            faults: 0,
        }
    }

    /// The counts with one more read.
    fn with(self, verdict: Verdict) -> Tally
        requires { tally_sum self + 1 < 2 ^ 32 }
        ensures { result ≡ added verdict self }
    {
        match verdict {
            Verdict::Right => Tally {
                right: self.right + 1,
                ..self
            },
            Verdict::Wrong => Tally {
                wrong: self.wrong + 1,
                ..self
            },
            Verdict::Fault => Tally {
                faults: self.faults + 1,
                ..self
            },
        }
    }

    /// The sums of two counts.
    fn plus(self, other: Tally) -> Tally
        requires { tally_sum self + tally_sum other < 2 ^ 32 }
        ensures right { result.right ≡ self.right + other.right }
        ensures wrong { result.wrong ≡ self.wrong + other.wrong }
        ensures faults { result.faults ≡ self.faults + other.faults }
    {
        Tally {
            right: self.right + other.right,
            wrong: self.wrong + other.wrong,
            faults: self.faults + other.faults,
        }
    }
}

/// What the read of a block comes to that has this leaf, where one is known.
pub(crate) fn verdict_of(leaf: Option<Hash32>, found: BlockFound) -> Verdict
    ensures { result ≡ verdict_of leaf found }
{
    match found {
        BlockFound::Whole(digest) => match leaf {
            Some(known) if known == digest => Verdict::Right,
            _ => Verdict::Wrong,
        },
        BlockFound::Short => Verdict::Wrong,
        BlockFound::Failed => Verdict::Fault,
    }
}

/// Gives a block the state that follows from its read.
fn give_state(states: &mut BlockStates, block: u32, verdict: Verdict, forgiving: bool)
    requires { block < length states.old }
    ensures { states.new ≡ after_verdict forgiving block verdict states.old }
{
    match verdict {
        Verdict::Right => states.set(block, BlockState::Marked),
        Verdict::Wrong => states.set(block, BlockState::Missing),
        Verdict::Fault if forgiving => {}
        Verdict::Fault => states.set(block, BlockState::Missing),
    }
}

/// How many blocks a buffer has room for, of one and of eight.
fn blocks_in(buffer: &[u8]) -> u32
    requires { full_block_length ≤ length buffer.now }
    ensures some { 0 < result }
    ensures few { result ≤ 8 }
    ensures room { result * full_block_length ≤ length buffer.now }
{
    if buffer.len() < BATCH_LEN {
        return 1;
    }
    BATCH_BLOCKS as u32
}

/// Judges blocks that lie next to each other, from the first on, by what their reads found.
fn judge_found<H: NodeHash>(
    states: &mut BlockStates,
    tree: &SparseTree<H>,
    first: u32,
    blocks_found: &[BlockFound; BATCH_BLOCKS],
    count: usize,
    forgiving: bool,
) -> Tally
    requires few { count ≤ 8 }
    requires inside { first + count ≤ length states.old }
    requires limit { length states.old ≤ max_block_count }
    ensures states { states.new
        ≡ judged_found H.digest tree.now forgiving first blocks_found.now count states.old }
    ensures tally { result ≡ tally_of H.digest tree.now first blocks_found.now count }
    ensures sum { tally_sum result ≡ count }
    ensures size { length states.new ≡ length states.old }
{
    let mut tally = Tally::new();
    for j in 0..count {
        let block = first + j as u32;
        let verdict = verdict_of(tree.known(0, block), blocks_found[j]);
        give_state(states, block, verdict, forgiving);
        tally = tally.with(verdict);
    }
    tally
}

impl<D: Disk + Drop, H: NodeHash> FileStore<D, H> {
    /// Reads each Waiting block whose leaf is known, of `count` blocks from `from` on, by one call of the
    /// device each and upwards: it becomes marked where its digest is the leaf, else missing, also where
    /// its read failed. Where the file has no Waiting block, that takes constant time.
    ///
    /// The one refusal is Range, where the file has fewer blocks; nothing is read then.
    pub fn settle(
        &mut self,
        tree: &SparseTree<H>,
        from: u32,
        count: u32,
    ) -> Result<Settled, StoreError>
        requires { tree.now.file_length ≡ self.old.file_length }
        ensures inside { IfOk result (λ _. from + count ≤ block_count self.old.file_length) }
        ensures settled { IfOk result (λ settled. (reads : List BlockRead)
            × IsJudged D.conduct H.digest tree.now false
            (waiting_blocks H.digest tree.now self.old.states from count) self.old reads self.new
            × (settled.marked ≡ right_count H.digest tree.now reads)
            × (settled.freed ≡ wrong_count H.digest tree.now reads)
            × (settled.faults ≡ fault_count reads)) }
        ensures range { IfErr result (λ error. error ≡ StoreError.Range) }
        ensures outside { IfErr result (λ _. block_count self.old.file_length < from + count) }
        ensures unchanged { IfErr result (λ _. self.new ≡ self.old) }
    {
        let blocks = self.geometry.blocks();
        if from > blocks || count > blocks - from {
            return Err(StoreError::Range);
        }
        if self.waiting() == 0 {
            return Ok(Settled {
                marked: 0,
                freed: 0,
                faults: 0,
            });
        }
        let tally = self.judge_chosen(tree, Review::Waiting, from, from + count);
        Ok(Settled {
            marked: tally.right,
            freed: tally.wrong,
            faults: tally.faults,
        })
    }

    /// Reads every marked block again, by one call of the device each and upwards: one whose digest is not
    /// its leaf, or whose leaf is unknown, becomes missing; one whose read fails stays marked.
    pub fn recheck(&mut self, tree: &SparseTree<H>) -> Rechecked
        requires { tree.now.file_length ≡ self.old.file_length }
        ensures { (reads : List BlockRead)
            × IsJudged D.conduct H.digest tree.now true
            (marked_blocks self.old.states) self.old reads self.new
            × (result.kept ≡ right_count H.digest tree.now reads)
            × (result.unmarked ≡ wrong_count H.digest tree.now reads)
            × (result.faults ≡ fault_count reads) }
    {
        let blocks = self.geometry.blocks();
        let tally = self.judge_chosen(tree, Review::Marked, 0, blocks);
        Rechecked {
            kept: tally.right,
            unmarked: tally.wrong,
            faults: tally.faults,
        }
    }

    /// Reads the blocks of a review, from one to before another, and judges each.
    ///
    /// The buffer is zeroed once for all of them. One block alone needs a smaller one.
    fn judge_chosen(&mut self, tree: &SparseTree<H>, review: Review, from: u32, end: u32) -> Tally
        requires geometry { tree.now.file_length ≡ self.old.file_length }
        requires upwards { from ≤ end }
        requires inside { end ≤ block_count self.old.file_length }
        ensures { (reads : List BlockRead)
            × IsJudged D.conduct H.digest tree.now (forgives review)
            (chosen_blocks H.digest tree.now review self.old.states from (end - from)) self.old
            reads self.new
            × IsTallyOf H.digest tree.now reads result }
    {
        let candidates = match review {
            Review::Waiting => self.waiting(),
            Review::Marked => self.marked(),
        };
        if candidates <= 1 || end - from <= 1 {
            return self.judge_through(tree, review, from, end, &mut [0; BLOCK_LEN]);
        }
        self.judge_through(tree, review, from, end, &mut [0; BATCH_LEN])
    }

    /// Reads the blocks of a review, from one to before another, into a buffer, eight at a time where it has
    /// room for them, and judges each.
    fn judge_through(
        &mut self,
        tree: &SparseTree<H>,
        review: Review,
        from: u32,
        end: u32,
        buffer: &mut [u8],
    ) -> Tally
        requires geometry { tree.now.file_length ≡ self.old.file_length }
        requires upwards { from ≤ end }
        requires inside { end ≤ block_count self.old.file_length }
        requires room { full_block_length ≤ length buffer.old }
        ensures { (reads : List BlockRead)
            × IsJudged D.conduct H.digest tree.now (forgives review)
            (chosen_blocks H.digest tree.now review self.old.states from (end - from)) self.old
            reads self.new
            × IsTallyOf H.digest tree.now reads result }
    {
        let most = blocks_in(buffer);
        let mut tally = Tally::new();
        let mut at = from;
        while at < end {
            let count = self.chosen_batch(tree, review, at, end, most);
            if count == 0 {
                at += 1;
            } else {
                let batch = self.judge_batch(tree, at, count as usize, review.forgives(), buffer);
                tally = tally.plus(batch);
                at += count;
            }
        }
        tally
    }

    /// How many blocks of a review lie next to each other from one on, as far as the most and before another.
    fn chosen_batch(
        &self,
        tree: &SparseTree<H>,
        review: Review,
        from: u32,
        end: u32,
        most: u32,
    ) -> u32
        requires upwards { from < end }
        requires inside { end ≤ block_count self.now.file_length }
        requires some { 0 < most }
        ensures few { result ≤ most }
        ensures inside { from + result ≤ end }
        ensures chosen { (j : ℕ) → j < result
            → is_chosen H.digest tree.now review self.now.states (from + j) ≡ true }
        ensures none { result ≡ 0 → is_chosen H.digest tree.now review self.now.states
            from ≡ false }
    {
        for count in 0..most {
            if count >= end - from || !self.is_chosen(tree, review, from + count) {
                return count;
            }
        }
        most
    }

    /// Whether a review reads a block.
    fn is_chosen(&self, tree: &SparseTree<H>, review: Review, block: u32) -> bool
        ensures { result ≡ is_chosen H.digest tree.now review self.now.states block }
    {
        match review {
            Review::Waiting => {
                self.states.get(block) == Some(BlockState::Waiting)
                    && tree.known(0, block).is_some()
            }
            Review::Marked => self.states.get(block) == Some(BlockState::Marked),
        }
    }

    /// Reads blocks that lie next to each other, at most eight, and judges each.
    ///
    /// The buffer is zeroed here, so that a call that reads nothing doesn't pay for it. One block alone
    /// needs a smaller one.
    pub(crate) fn judge_blocks(
        &mut self,
        tree: &SparseTree<H>,
        first: u32,
        count: usize,
        forgiving: bool,
    ) -> Tally
        requires geometry { tree.now.file_length ≡ self.old.file_length }
        requires few { count ≤ 8 }
        requires inside { first + count ≤ block_count self.old.file_length }
        ensures judged { (reads : List BlockRead)
            × IsJudged D.conduct H.digest tree.now forgiving
            (range_with_len first count) self.old reads self.new
            × IsTallyOf H.digest tree.now reads result }
        ensures sum { tally_sum result ≡ count }
    {
        if count == 1 {
            return self.judge_batch(tree, first, 1, forgiving, &mut [0; BLOCK_LEN]);
        }
        self.judge_batch(tree, first, count, forgiving, &mut [0; BATCH_LEN])
    }

    /// Reads blocks that lie next to each other, at most eight, into a buffer, and judges each.
    fn judge_batch(
        &mut self,
        tree: &SparseTree<H>,
        first: u32,
        count: usize,
        forgiving: bool,
        buffer: &mut [u8],
    ) -> Tally
        requires geometry { tree.now.file_length ≡ self.old.file_length }
        requires few { count ≤ 8 }
        requires inside { first + count ≤ block_count self.old.file_length }
        requires room { count * full_block_length ≤ length buffer.old }
        ensures judged { (reads : List BlockRead)
            × IsJudged D.conduct H.digest tree.now forgiving
            (range_with_len first count) self.old reads self.new
            × IsTallyOf H.digest tree.now reads result }
        ensures sum { tally_sum result ≡ count }
    {
        let lengths = read_batch(&mut self.disk, self.geometry, first, count, buffer);
        let blocks_found = digest_batch(self.hash, self.geometry, first, count, &lengths, buffer);
        judge_found(
            &mut self.states,
            tree,
            first,
            &blocks_found,
            count,
            forgiving,
        )
    }
}
