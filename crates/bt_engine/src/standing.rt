//! What no event but a restart loses.
ghost use Rattle.bt_engine.specs.Standing.{RunsStand, StepsStand};

use bt_disk::Disk;
use bt_machine::{run_keeps_images, run_keeps_marks, runs_compose};
use bt_resume::kept_hints_stand;
use bt_tree::NodeHash;

/// Over events of which none is a restart no mark on an honest device is lost, nothing that every image since
/// a moment has of a marked block, and nothing of the text that every image of the log begins with. It does
/// nothing when it runs.
pub(crate) fn events_stand<D: Disk, H: NodeHash>(hash: H)
    ensures runs { RunsStand D.conduct H.digest }
    ensures steps { StepsStand D.conduct H.digest }
{
    run_keeps_marks::<D, H>(hash);
    run_keeps_images::<D, H>(hash);
    kept_hints_stand::<D>();
    runs_compose::<D, H>();
}
