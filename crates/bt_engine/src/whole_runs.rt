//! What is promised of runs from the start of a torrent.
ghost use Rattle.bt_engine.specs.WholeRuns.{WhatLeadsOnIsWhole, WholeRunsKeepPromises};

use crate::engine::Engine;
use bt_disk::Disk;
use bt_machine::{
    complete_files_are_published, flush_keeps_blocks, honest_devices_were_so, right_is_checked,
    run_keeps_images, run_keeps_marks, run_sends_read_bytes, runs_compose, runs_keep_shape,
    start_marks_by_bytes, starts_keep_laws, step_marks_by_bytes, steps_keep_laws,
};
use bt_tree::NodeHash;

/// Of whatever events run from the start of a torrent, with a log or without, by an engine of these devices and
/// digests: what is marked, sent and complete then is what the torrent names. Restarts may be among them; what
/// leads on without one is such a run too. It does nothing when it runs.
pub fn whole_runs_keep_promises<D: Disk + Drop, H: NodeHash>(engine: &Engine<D, H>)
    ensures runs { WholeRunsKeepPromises D.conduct H.digest }
    ensures leads { WhatLeadsOnIsWhole D.conduct H.digest }
{
    let hash = engine.hash();
    right_is_checked(hash);
    starts_keep_laws::<D, H>(hash);
    start_marks_by_bytes::<H>();
    steps_keep_laws::<D, H>(hash);
    step_marks_by_bytes(hash);
    run_sends_read_bytes::<H>();
    runs_compose::<D, H>();
    runs_keep_shape::<H>();
    complete_files_are_published::<D, H>(hash);
    run_keeps_marks::<D, H>(hash);
    run_keeps_images::<D, H>(hash);
    flush_keeps_blocks::<D, H>();
    honest_devices_were_so::<D, H>();
}
