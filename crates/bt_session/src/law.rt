//! What is said of all runs of an engine is said of sessions too, and no session loses a mark on an honest
//! device. The functions do nothing when they run.
ghost use Rattle.bt_session.specs.LawSteps.{SessionsStand};
ghost use Rattle.bt_session.specs.Session.{SessionsAreRuns};

use bt_disk::Disk;
use bt_machine::{run_keeps_images, run_keeps_marks, runs_compose};
use bt_resume::kept_hints_stand;
use bt_tree::NodeHash;

/// The events of a session are a run of its engine, one after the other, with the answers that it had. So
/// what is said of every run is said of sessions too.
pub fn sessions_are_runs<D: Disk, H: NodeHash>()
    ensures { SessionsAreRuns D.conduct H.digest }
{
    runs_compose::<D, H>();
}

/// No event of a session is a restart, so over a session no mark on an honest device is lost, nothing that
/// every image since a moment has of a marked block, and nothing of the text that every image of the log
/// begins with. It does nothing when it runs.
pub(crate) fn sessions_stand<D: Disk, H: NodeHash>(hash: H)
    ensures { SessionsStand D.conduct H.digest }
{
    run_keeps_marks::<D, H>(hash);
    run_keeps_images::<D, H>(hash);
    kept_hints_stand::<D>();
    runs_compose::<D, H>();
}
