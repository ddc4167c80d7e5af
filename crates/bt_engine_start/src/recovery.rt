//! The files of an engine that begins, or begins anew, with a log.
ghost use Rattle.std.specs.Prelude.{[], ◌≡◌};
ghost use Rattle.bt_machine.specs.Restart.{KeepsPlaces};
ghost use Rattle.bt_machine.specs.Shape.{IsShaped};
ghost use Rattle.bt_engine_state.specs.Parts.{state_of, hints_of};
ghost use Rattle.bt_engine_state.specs.Ties.{IsTied};
ghost use Rattle.bt_engine_start.specs.RecoverySteps.{AreMissing, RecoversFiles};
ghost use Rattle.bt_engine_start.specs.Runs.{AreRunsOf};

use crate::following::follow_files;
use crate::reads::restore_files;
use crate::runs::MarkRun;
use bt_disk::Disk;
use bt_engine_state::Parts;
use bt_tree::NodeHash;

/// Restores the files of an engine, by the marks of the hints that were last read from its log, which are
/// given as runs; where there is no run, no file is looked at. All blocks are missing, and no peer is connected.
/// Takes no memory.
pub(crate) fn recover_files<D: Disk + Drop, H: NodeHash>(parts: &mut Parts<D, H>, runs: &[MarkRun])
    requires tied { IsTied parts.old }
    requires shaped { IsShaped parts.old.torrent (state_of parts.old) }
    requires alone { parts.old.peers.items ≡ [] }
    requires missing { AreMissing parts.old.slots.items }
    requires runs { AreRunsOf (hints_of parts.old.log) runs.now }
    ensures recovers { RecoversFiles D.conduct H.digest parts.old parts.new }
    ensures places { KeepsPlaces (state_of parts.old) (state_of parts.new) }
    ensures torrent { parts.new.torrent ≡ parts.old.torrent }
    ensures log { parts.new.log ≡ parts.old.log }
    ensures tied { IsTied parts.new }
{
    if runs.is_empty() {
        return;
    }
    restore_files(&mut parts.slots, &parts.trees, runs);
    follow_files(
        &parts.torrent,
        &parts.slots,
        &mut parts.book,
        &mut parts.counts,
    );
}
