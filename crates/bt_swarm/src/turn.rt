//! The turns of connections: what one gives is fed, and what the engine sends then is put into the ways out.
ghost use Rattle.std.specs.Prelude.{◌<◌, length};
ghost use Rattle.bt_session.specs.Failures.{OneFailed};
ghost use Rattle.bt_swarm.specs.Causes.{ReadFailed};
ghost use Rattle.bt_swarm.specs.Moves.{GoesOn, HaveOwnKeys};

use crate::buffers::SwarmBuffers;
use crate::calls::{feed, next, rechoke};
use crate::gate::Gate;
use crate::member::{Member, deliver, note_events, pass_on, put_end, read_of, takes_more};
use bt_disk::Disk;
use bt_engine::Engine;
use bt_session::SessionEnd;
use bt_tree::NodeHash;

/// How often a connection is read in a turn.
const READS: u32 = 9;

/// How many of its wire events are taken in a turn.
const EVENTS: usize = 64;

/// While no more are there, all of them may be served: so many are.
const SERVED: usize = 4;

/// A turn for each connection that is ready. Then the peers to serve are chosen anew, where that is due or so
/// few are there that all may be served; and what waits is passed on. Says how many turns there were.
pub(crate) fn give_turns<D: Disk + Drop, H: NodeHash, G: Gate>(
    engine: &mut Engine<D, H>,
    gate: &G,
    members: &mut [Member<G::R, G::W>],
    choice_due: bool,
    buffers: &mut SwarmBuffers,
) -> u64
    requires own_keys { HaveOwnKeys members.old }
    ensures goes { GoesOn D.conduct H.digest (ReadFailed G.R.has_failed G.is_troubled)
        (OneFailed G.W.has_failed) G.R.remaining G.W.contents
        engine.old members.old engine.new members.new }
{
    let turns = take_turns(engine, gate, members, buffers);
    let due = choice_due || (turns > 0 && members.len() <= SERVED);
    choose_if::<D, H, G>(due, engine, members, buffers);
    pass_on(gate, members);
    turns
}

/// A turn for each connection that is ready, or of which wire events may wait. Says how many these were.
fn take_turns<D: Disk + Drop, H: NodeHash, G: Gate>(
    engine: &mut Engine<D, H>,
    gate: &G,
    members: &mut [Member<G::R, G::W>],
    buffers: &mut SwarmBuffers,
) -> u64
    requires own_keys { HaveOwnKeys members.old }
    ensures goes { GoesOn D.conduct H.digest (ReadFailed G.R.has_failed G.is_troubled)
        (OneFailed G.W.has_failed) G.R.remaining G.W.contents
        engine.old members.old engine.new members.new }
{
    let mut turns = 0u64;
    for at in 0..members.len() {
        turns = turns.saturating_add(take_turn_if_ready(engine, gate, members, at, buffers));
    }
    turns
}

/// A turn of a connection, where it is ready or wire events of it may wait: how many turns that is.
fn take_turn_if_ready<D: Disk + Drop, H: NodeHash, G: Gate>(
    engine: &mut Engine<D, H>,
    gate: &G,
    members: &mut [Member<G::R, G::W>],
    at: usize,
    buffers: &mut SwarmBuffers,
) -> u64
    requires within { at < length members.old }
    requires own_keys { HaveOwnKeys members.old }
    ensures goes { GoesOn D.conduct H.digest (ReadFailed G.R.has_failed G.is_troubled)
        (OneFailed G.W.has_failed) G.R.remaining G.W.contents
        engine.old members.old engine.new members.new }
{
    if !members[at].may_have_events && !gate.is_ready(members[at].place) {
        return 0;
    }
    take_turn(engine, gate, members, at, buffers);
    1
}

/// A turn of a connection: wire events that wait are taken, then what it gives by at most nine reads is fed,
/// and after each the wire events in it are taken, 64 in all.
fn take_turn<D: Disk + Drop, H: NodeHash, G: Gate>(
    engine: &mut Engine<D, H>,
    gate: &G,
    members: &mut [Member<G::R, G::W>],
    at: usize,
    buffers: &mut SwarmBuffers,
)
    requires within { at < length members.old }
    requires own_keys { HaveOwnKeys members.old }
    ensures goes { GoesOn D.conduct H.digest (ReadFailed G.R.has_failed G.is_troubled)
        (OneFailed G.W.has_failed) G.R.remaining G.W.contents
        engine.old members.old engine.new members.new }
{
    let mut left = take_events(engine, gate, members, at, EVENTS, buffers);
    for read in 0..READS {
        if left == 0 {
            return;
        }
        left = read_and_take(engine, gate, members, at, left, buffers);
    }
}

/// Feeds what a connection gives by one read, and takes the wire events in it, at most so many. Says how many
/// more may be taken, none where nothing came.
fn read_and_take<D: Disk + Drop, H: NodeHash, G: Gate>(
    engine: &mut Engine<D, H>,
    gate: &G,
    members: &mut [Member<G::R, G::W>],
    at: usize,
    most: usize,
    buffers: &mut SwarmBuffers,
) -> usize
    requires within { at < length members.old }
    requires own_keys { HaveOwnKeys members.old }
    ensures goes { GoesOn D.conduct H.digest (ReadFailed G.R.has_failed G.is_troubled)
        (OneFailed G.W.has_failed) G.R.remaining G.W.contents
        engine.old members.old engine.new members.new }
{
    if !receive::<D, H, G>(engine, members, at, buffers) {
        return 0;
    }
    take_events(engine, gate, members, at, most, buffers)
}

/// Feeds what a connection gives now: says whether something came.
fn receive<D: Disk + Drop, H: NodeHash, G: Gate>(
    engine: &mut Engine<D, H>,
    members: &mut [Member<G::R, G::W>],
    at: usize,
    buffers: &mut SwarmBuffers,
) -> bool
    requires within { at < length members.old }
    requires own_keys { HaveOwnKeys members.old }
    ensures goes { GoesOn D.conduct H.digest (ReadFailed G.R.has_failed G.is_troubled)
        (OneFailed G.W.has_failed) G.R.remaining G.W.contents
        engine.old members.old engine.new members.new }
{
    if !takes_more::<G>(&members[at]) {
        return false;
    }
    let count = read_of::<G>(&mut members[at], &mut buffers.incoming);
    if count == 0 {
        return false;
    }
    match feed(engine, members[at].key, &buffers.incoming[..count]) {
        Ok(()) => {
            note_events::<G>(&mut members[at], true);
            true
        }
        Err(_) => {
            put_end::<G>(&mut members[at], SessionEnd::Memory);
            false
        }
    }
}

/// Takes wire events of a connection, at most so many, until none has come whole, it ends, or too much waits
/// for it. Says how many more may be taken.
fn take_events<D: Disk + Drop, H: NodeHash, G: Gate>(
    engine: &mut Engine<D, H>,
    gate: &G,
    members: &mut [Member<G::R, G::W>],
    at: usize,
    most: usize,
    buffers: &mut SwarmBuffers,
) -> usize
    requires within { at < length members.old }
    requires own_keys { HaveOwnKeys members.old }
    ensures goes { GoesOn D.conduct H.digest (ReadFailed G.R.has_failed G.is_troubled)
        (OneFailed G.W.has_failed) G.R.remaining G.W.contents
        engine.old members.old engine.new members.new }
{
    for taken in 0..most {
        if !members[at].may_have_events || !takes_more::<G>(&members[at]) {
            return most - taken;
        }
        take_event_safely(engine, gate, members, at, buffers);
    }
    0
}

/// Takes the next wire event of a connection, which ends where a device refused a write in it.
fn take_event_safely<D: Disk + Drop, H: NodeHash, G: Gate>(
    engine: &mut Engine<D, H>,
    gate: &G,
    members: &mut [Member<G::R, G::W>],
    at: usize,
    buffers: &mut SwarmBuffers,
)
    requires within { at < length members.old }
    requires own_keys { HaveOwnKeys members.old }
    ensures goes { GoesOn D.conduct H.digest (ReadFailed G.R.has_failed G.is_troubled)
        (OneFailed G.W.has_failed) G.R.remaining G.W.contents
        engine.old members.old engine.new members.new }
{
    take_event::<D, H, G>(engine, members, at, buffers);
    if gate.has_trouble() {
        put_end::<G>(&mut members[at], SessionEnd::ReadFault);
    }
}

/// Takes the next wire event of a connection, and puts what is sent to each into its way out.
fn take_event<D: Disk + Drop, H: NodeHash, G: Gate>(
    engine: &mut Engine<D, H>,
    members: &mut [Member<G::R, G::W>],
    at: usize,
    buffers: &mut SwarmBuffers,
)
    requires within { at < length members.old }
    requires own_keys { HaveOwnKeys members.old }
    ensures goes { GoesOn D.conduct H.digest (ReadFailed G.R.has_failed G.is_troubled)
        (OneFailed G.W.has_failed) G.R.remaining G.W.contents
        engine.old members.old engine.new members.new }
{
    match next(engine, members[at].key) {
        Ok(Some(output)) => {
            deliver::<G>(members, &output.send, buffers);
            match output.close {
                Some(why) => {
                    put_end::<G>(&mut members[at], SessionEnd::Closed(why));
                }
                None => {}
            }
        }
        Ok(None) => note_events::<G>(&mut members[at], false),
        Err(_) => {
            put_end::<G>(&mut members[at], SessionEnd::Memory);
        }
    }
}

/// Chooses the peers to serve anew, where that is due. Without memory for it they stay.
fn choose_if<D: Disk + Drop, H: NodeHash, G: Gate>(
    due: bool,
    engine: &mut Engine<D, H>,
    members: &mut [Member<G::R, G::W>],
    buffers: &mut SwarmBuffers,
)
    ensures goes { GoesOn D.conduct H.digest (ReadFailed G.R.has_failed G.is_troubled)
        (OneFailed G.W.has_failed) G.R.remaining G.W.contents
        engine.old members.old engine.new members.new }
{
    if !due {
        return;
    }
    match rechoke(engine) {
        Ok(output) => deliver::<G>(members, &output.send, buffers),
        Err(_) => {}
    }
}
