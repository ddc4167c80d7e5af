//! Lists of events.
ghost use Rattle.std.specs.Prelude.{◌≡◌, OnOk, OnErr};
ghost use Rattle.bt_machine.specs.Unmarks.{HasNoRestart};
ghost use Rattle.bt_machine.specs.View.{StepsTo};
ghost use Rattle.bt_engine.specs.Run.{RunsEvents};
ghost use Rattle.bt_engine.specs.Standing.{Stands};

use crate::engine::Engine;
use crate::standing::events_stand;
use bt_disk::Disk;
use bt_machine::{Answer, Event, runs_compose};
use bt_tree::NodeHash;
use std::alloc::AllocError;

/// Runs events of an engine one after the other, and puts the answer of each after those that are there.
/// Errors: there is no memory for the answers. No event ran then.
pub fn run_events<D: Disk + Drop, H: NodeHash>(
    engine: &mut Engine<D, H>,
    events: &[Event],
    answers: &mut Vec<Answer>,
) -> Result<(), AllocError>
    ensures runs { OnOk result (RunsEvents D.conduct H.digest engine.old events.now
        answers.old.items answers.new.items engine.new) }
    ensures kept { OnErr result (engine.new ≡ engine.old) }
    ensures unanswered { OnErr result (answers.new.items ≡ answers.old.items) }
    ensures stands { HasNoRestart events.now
        → Stands D.conduct engine.old engine.new }
{
    runs_compose::<D, H>();
    events_stand::<D, H>(engine.hash());
    engine.keeps_laws();
    answers.reserve(events.len())?;
    for event in events {
        answers.push(run_event(engine, event)).unwrap();
    }
    Ok(())
}

/// Runs one event.
fn run_event<D: Disk + Drop, H: NodeHash>(engine: &mut Engine<D, H>, event: &Event) -> Answer
    ensures { StepsTo D.conduct H.digest engine.old event.now result engine.new }
{
    match event {
        Event::Connect => Answer::Connected(engine.connect()),
        Event::Feed(peer, bytes) => Answer::Fed(engine.feed(*peer, bytes.as_slice())),
        Event::Next(peer) => Answer::Stepped(engine.next(*peer)),
        Event::Lost(peer) => Answer::Lost(engine.lost(*peer)),
        Event::Rechoke => Answer::Rechoked(engine.rechoke()),
        Event::Adopt(file) => Answer::Adopted(engine.adopt(*file)),
        Event::Flush => Answer::Flushed(engine.flush()),
        Event::Restart => Answer::Restarted(engine.restart()),
    }
}
