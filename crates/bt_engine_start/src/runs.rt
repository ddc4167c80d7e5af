//! The blocks that a log's marks record, as runs of which no two have a block in common.
ghost use Rattle.std.specs.Prelude.{◌≡◌, IfOk, max, if◌then◌else◌};
ghost use Rattle.bt_book.specs.declared.names.BlockId.{BlockId};
ghost use Rattle.bt_resume.specs.LogText.{hints_in};
ghost use Rattle.bt_machine.specs.Hints.{is_recorded};
ghost use Rattle.bt_engine_start.specs.Runs.{marks_of, touches, AreRunsOf};

use bt_resume::{Hints, LentHint};
use std::alloc::{AllocError, Global};

/// Blocks of one of the torrent's files that follow each other: from block `first` on, and before block `end`.
#[derive(Clone, Copy, Debug, PartialEq, Eq, PartialOrd, Ord)]
pub struct MarkRun {
    pub file: u32,
    pub first: u32,
    pub end: u64,
}

impl MarkRun {
    /// Takes in a run that does not begin before this one, where it is of the same file and no block lies
    /// between the two. Says whether it did.
    fn take_in(&mut self, next: &MarkRun) -> bool
        ensures taken { result ≡ touches self.old next.now }
        ensures run { self.new ≡ (if result
            then record self.old { end = max self.old.end next.now.end } else self.old) }
    {
        if self.file != next.file || self.end < u64::from(next.first) {
            return false;
        }
        self.end = self.end.max(next.end);
        true
    }
}

/// The blocks that marks of the hints record, as runs in ascending order, by file and then block. Each run ends
/// before the next one of its file begins, so no block is in two. It takes 16 bytes of memory for each hint, and
/// its time is that of a sort.
///
/// Errors: out of memory.
pub fn recorded_runs(alloc: Global, hints: &Hints) -> Result<Vec<MarkRun>, AllocError>
    ensures { IfOk result (λ runs. AreRunsOf (hints_in hints.now) runs.items) }
{
    let mut runs = gather_runs(alloc, hints)?;
    runs.sort_unstable();
    runs.dedup_by(|next, run| run.take_in(next));
    Ok(runs)
}

/// The runs of marks among the hints, in their order. Errors: out of memory.
fn gather_runs(alloc: Global, hints: &Hints) -> Result<Vec<MarkRun>, AllocError>
    ensures { IfOk result (λ runs. (block : BlockId)
        → is_recorded (marks_of runs.items) block ≡ is_recorded (hints_in hints.now) block) }
{
    let mut runs = Vec::with_capacity(alloc, hints.len())?;
    for hint in hints.iter() {
        if let LentHint::Marks { file, first, count } = hint {
            let end = u64::from(first) + u64::from(count);
            runs.push(MarkRun { file, first, end })?;
        }
    }
    Ok(runs)
}
