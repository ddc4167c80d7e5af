//! What is promised of lists of events.
ghost use Rattle.std.specs.Prelude.{◌≡◌, OnOk, OnErr};
ghost use Rattle.bt_machine.specs.Unmarks.{HasNoRestart};
ghost use Rattle.bt_engine.specs.Standing.{Stands};
ghost use Rattle.bt_engine.specs.Flushes.{KeepsFlushed, FlushedBlocksStay};
ghost use Rattle.bt_engine.specs.Promises.{RunsAsPromised, ArePublished};

use crate::engine::Engine;
use crate::run::run_events;
use bt_disk::Disk;
use bt_machine::{
    Answer, Event, complete_files_stand, flush_keeps_blocks, honest_devices_were_so,
    right_is_checked, run_keeps_images, run_keeps_marks, run_sends_read_bytes, runs_compose,
    step_marks_by_bytes, steps_keep_laws,
};
use bt_tree::{NodeHash, roots_tell_files};
use std::alloc::AllocError;

/// Lets the events happen to the engine, one after the other, and puts the answer of each after those that
/// are there, as `run_events` does. Its contract says what is promised of that, whatever peers send and
/// devices answer; some of it only where no event is a restart. Errors: there is no memory for the
/// answers, and then no event happened.
pub fn run_as_promised<D: Disk + Drop, H: NodeHash>(
    engine: &mut Engine<D, H>,
    events: &[Event],
    answers: &mut Vec<Answer>,
) -> Result<(), AllocError>
    ensures run { OnOk result (RunsAsPromised D.conduct H.digest engine.old events.now
        answers.old.items answers.new.items engine.new) }
    ensures kept { OnErr result (engine.new ≡ engine.old) }
    ensures unanswered { OnErr result (answers.new.items ≡ answers.old.items) }
    ensures published { ArePublished D.conduct H.digest engine.new }
    ensures stands { HasNoRestart events.now
        → Stands D.conduct engine.old engine.new }
    ensures flushed { HasNoRestart events.now
        → KeepsFlushed D.conduct H.digest engine.old engine.new }
{
    // The laws of a run, and what holds of an engine before the events and after them.
    let hash = engine.hash();
    roots_tell_files(hash);
    right_is_checked(hash);
    steps_keep_laws::<D, H>(hash);
    step_marks_by_bytes(hash);
    run_sends_read_bytes::<H>();
    runs_compose::<D, H>();
    complete_files_stand::<D, H>();
    run_keeps_marks::<D, H>(hash);
    run_keeps_images::<D, H>(hash);
    flush_keeps_blocks::<D, H>();
    honest_devices_were_so::<D, H>();
    engine.keeps_laws();
    let result = run_events(engine, events, answers);
    engine.keeps_laws();
    result
}

/// Once a flush answered Ok, a stop at any later moment loses no block that was marked then: this says so of
/// an engine, where it stands right after the flush. Its contract is of whatever events follow, up to a
/// restart, and of stops between them and within them. It does nothing when it runs.
pub fn flushed_blocks_stay<D: Disk + Drop, H: NodeHash>(engine: &Engine<D, H>)
    ensures { FlushedBlocksStay D.conduct H.digest engine.now }
{
    let hash = engine.hash();
    run_keeps_marks::<D, H>(hash);
    run_keeps_images::<D, H>(hash);
    flush_keeps_blocks::<D, H>();
    honest_devices_were_so::<D, H>();
    engine.keeps_laws();
}
