//! Runs that several parts told of one file are joined to what a check of the whole file finds.
ghost use Rattle.std.specs.Prelude.{◌≡◌, ◌++◌, ◌≤◌, List, IfSome, IfNone};
ghost use Rattle.bt_check.specs.declared.data_file.Finding.{Finding as Found};
ghost use Rattle.bt_parts.specs.Join.{BeginsElsewhere, IsJoined};
ghost use Rattle.bt_parts.specs.JoinSteps.{Continues};
ghost use Rattle.bt_parts.specs.Run.{IsWithin};
ghost use Rattle.bt_parts.specs.declared.run.Run.{Run as BlockRun};

use crate::run::{Met, Run};
use bt_check::Finding;

/// What some runs of a file come to, that begin with its first block: they end before block `reached`.
#[derive(Clone, Copy)]
struct Joined {
    reached: u32,
    finding: Finding,
}

impl Joined {
    /// With one run more: none where that does not begin where the runs so far end, or the file has no such run.
    fn with(self, run: Run) -> Option<Joined>
        requires { self.finding.marked ≤ self.reached }
        ensures some { IfSome result (Continues self run) }
        ensures none { IfNone result (run.from ≡ self.reached
            → ¬ IsWithin self.finding.blocks run) }
    {
        let finding = self.finding;
        if run.from != self.reached || !run.is_within(finding.blocks) {
            return None;
        }
        Some(Joined {
            reached: run.to,
            finding: Finding {
                blocks: finding.blocks,
                marked: finding.marked + run.marked,
                longer: finding.longer || run.met == Met::Longer,
                faulty: finding.faulty || run.met.is_fault(),
            },
        })
    }
}

/// Joins the runs of a file, which stand before those of other files, in order of their blocks: what a check finds that
/// found this, and the runs of the other files. None where they are not the blocks of the whole file, each once.
pub fn join_runs(file: u32, blocks: u32, runs: &[Run]) -> Option<(Finding, &[Run])>
    ensures some { IfSome result (λ x. (own : List BlockRun) × (runs.now ≡ own ++ x.1.now)
        × BeginsElsewhere file x.1.now × IsJoined file blocks own x.0) }
    ensures none { IfNone result ((own rest : List BlockRun) (finding : Found) → runs.now
        ≡ own ++ rest
        → BeginsElsewhere file rest → ¬ IsJoined file blocks own finding) }
{
    let mut joined = Joined {
        reached: 0,
        finding: Finding {
            blocks,
            marked: 0,
            longer: false,
            faulty: false,
        },
    };
    let mut count = 0;
    while count < runs.len() && runs[count].file == file {
        joined = joined.with(runs[count])?;
        count += 1;
    }
    if count == 0 || joined.reached < blocks {
        return None;
    }
    Some((joined.finding, &runs[count..]))
}
