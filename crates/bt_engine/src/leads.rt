//! What stands over events that lead from one engine to another.
ghost use Rattle.bt_engine.specs.Leads.{WhatLeadsOnStands};

use bt_disk::Disk;
use bt_machine::{run_keeps_images, run_keeps_marks, runs_compose};
use bt_resume::kept_hints_stand;
use bt_tree::NodeHash;

/// Whatever leads on from an engine, by events of which none is a restart: no mark on an honest device is lost,
/// nothing that every image since a moment has of a marked block, and nothing of the text that every image of
/// the log begins with. It does nothing when it runs.
pub fn what_leads_on_stands<D: Disk, H: NodeHash>(hash: H)
    ensures { WhatLeadsOnStands D.conduct H.digest }
{
    run_keeps_marks::<D, H>(hash);
    run_keeps_images::<D, H>(hash);
    kept_hints_stand::<D>();
    runs_compose::<D, H>();
}
