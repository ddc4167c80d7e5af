//! Connections that come and go.
ghost use Rattle.std.specs.Prelude.{[], ◌≡◌, ◌≢◌, ◌+◌, ◌<◌, ◌≤◌, length, slice_index_or, Some};
ghost use Rattle.bt_machine.specs.Report.{all_complete};
ghost use Rattle.bt_session.specs.Failures.{OneFailed};
ghost use Rattle.bt_swarm.specs.Causes.{ReadFailed, MayEndAll};
ghost use Rattle.bt_swarm.specs.Moves.{AreKeyed, EachMovesBy};
ghost use Rattle.bt_swarm.specs.Swarm.{SwarmsOn, HasLeft, ReadFailedOrCut};

use crate::buffers::SwarmBuffers;
use crate::calls::{connect, lost};
use crate::gate::Gate;
use crate::member::{Member, deliver, put_end};
use bt_disk::Disk;
use bt_engine::Engine;
use bt_machine::FlushError;
use bt_session::SessionEnd;
use bt_tree::NodeHash;

/// As many as an engine takes may be there at once.
const MOST: usize = 64;

/// Connections that wait join, while there is a place.
pub(crate) fn admit<D: Disk + Drop, H: NodeHash, G: Gate>(
    engine: &mut Engine<D, H>,
    gate: &mut G,
    members: &mut Vec<Member<G::R, G::W>>,
    buffers: &mut SwarmBuffers,
)
    requires keyed { AreKeyed engine.old.state members.old.items }
    ensures keyed { AreKeyed engine.new.state members.new.items }
    ensures swarm { SwarmsOn D.conduct H.digest (ReadFailed G.R.has_failed G.is_troubled)
        (OneFailed G.W.has_failed) G.gives G.R.remaining G.W.contents G.leads
        engine.old members.old.items gate.old engine.new members.new.items gate.new }
    ensures waits { G.waits gate.new ≡ G.waits gate.old }
{
    for place in 0..MOST {
        if !admit_at(engine, gate, members, place, buffers) {
            return;
        }
    }
}

/// A connection that waits joins at this place, where nobody has it: false where none waits, or it may not.
fn admit_at<D: Disk + Drop, H: NodeHash, G: Gate>(
    engine: &mut Engine<D, H>,
    gate: &mut G,
    members: &mut Vec<Member<G::R, G::W>>,
    place: usize,
    buffers: &mut SwarmBuffers,
) -> bool
    requires keyed { AreKeyed engine.old.state members.old.items }
    ensures keyed { AreKeyed engine.new.state members.new.items }
    ensures swarm { SwarmsOn D.conduct H.digest (ReadFailed G.R.has_failed G.is_troubled)
        (OneFailed G.W.has_failed) G.gives G.R.remaining G.W.contents G.leads
        engine.old members.old.items gate.old engine.new members.new.items gate.new }
    ensures waits { G.waits gate.new ≡ G.waits gate.old }
{
    if is_taken::<G>(members.as_slice(), place) {
        return true;
    }
    join(engine, gate, members, place, buffers)
}

/// Whether one that is there has this place.
fn is_taken<G: Gate>(members: &[Member<G::R, G::W>], place: usize) -> bool {
    for member in members {
        if member.place == place {
            return true;
        }
    }
    false
}

/// A connection that waits joins the others, and is greeted: whether one did. Where there is no memory for one,
/// none is taken. One that the engine refuses is closed, and the gate is told.
fn join<D: Disk + Drop, H: NodeHash, G: Gate>(
    engine: &mut Engine<D, H>,
    gate: &mut G,
    members: &mut Vec<Member<G::R, G::W>>,
    place: usize,
    buffers: &mut SwarmBuffers,
) -> bool
    requires keyed { AreKeyed engine.old.state members.old.items }
    ensures keyed { AreKeyed engine.new.state members.new.items }
    ensures swarm { SwarmsOn D.conduct H.digest (ReadFailed G.R.has_failed G.is_troubled)
        (OneFailed G.W.has_failed) G.gives G.R.remaining G.W.contents G.leads
        engine.old members.old.items gate.old engine.new members.new.items gate.new }
    ensures waits { G.waits gate.new ≡ G.waits gate.old }
{
    if members.reserve(1).is_err() {
        return false;
    }
    let Some((reader, writer)) = gate.accept(place) else {
        return false;
    };
    let Ok((key, greeting)) = connect(engine) else {
        gate.tell(place, SessionEnd::Memory);
        return false;
    };
    members.push_reserved(Member {
        key,
        place,
        reader,
        writer,
        may_have_events: false,
        end: None,
    });
    deliver::<G>(members.as_mut_slice(), &greeting.send, buffers);
    true
}

/// Those that have ended go: whether one did.
pub(crate) fn let_go<D: Disk + Drop, H: NodeHash, G: Gate>(
    engine: &mut Engine<D, H>,
    gate: &mut G,
    members: &mut Vec<Member<G::R, G::W>>,
) -> bool
    requires keyed { AreKeyed engine.old.state members.old.items }
    ensures keyed { AreKeyed engine.new.state members.new.items }
    ensures swarm { SwarmsOn D.conduct H.digest (ReadFailed G.R.has_failed G.is_troubled)
        (OneFailed G.W.has_failed) G.gives G.R.remaining G.W.contents G.leads
        engine.old members.old.items gate.old engine.new members.new.items gate.new }
    ensures waits { G.waits gate.new ≡ G.waits gate.old }
{
    let mut gone = false;
    // from the last to the first, so that none is passed over
    for at in (0..members.len()).rev() {
        gone |= leave_if_ended(engine, gate, members, at);
    }
    gone
}

/// One goes, where it has ended: whether it did.
fn leave_if_ended<D: Disk + Drop, H: NodeHash, G: Gate>(
    engine: &mut Engine<D, H>,
    gate: &mut G,
    members: &mut Vec<Member<G::R, G::W>>,
    at: usize,
) -> bool
    requires within { at < length members.old.items }
    requires keyed { AreKeyed engine.old.state members.old.items }
    ensures keyed { AreKeyed engine.new.state members.new.items }
    ensures swarm { SwarmsOn D.conduct H.digest (ReadFailed G.R.has_failed G.is_troubled)
        (OneFailed G.W.has_failed) G.gives G.R.remaining G.W.contents G.leads
        engine.old members.old.items gate.old engine.new members.new.items gate.new }
    ensures fewer { length members.old.items ≤ length members.new.items + 1 }
    ensures waits { G.waits gate.new ≡ G.waits gate.old }
{
    match members[at].end {
        Some(end) => {
            leave(engine, gate, members, at, end);
            true
        }
        None => false,
    }
}

/// One that has ended goes: it is closed, and the engine and the gate are told.
fn leave<D: Disk + Drop, H: NodeHash, G: Gate>(
    engine: &mut Engine<D, H>,
    gate: &mut G,
    members: &mut Vec<Member<G::R, G::W>>,
    at: usize,
    end: SessionEnd,
)
    requires within { at < length members.old.items }
    requires keyed { AreKeyed engine.old.state members.old.items }
    ensures keyed { AreKeyed engine.new.state members.new.items }
    ensures left { HasLeft D.conduct H.digest G.leads at end
        engine.old members.old.items gate.old engine.new members.new.items gate.new }
    ensures shorter { length members.new.items + 1 ≡ length members.old.items }
    ensures complete { all_complete engine.new.state ≡ all_complete engine.old.state }
    ensures waits { G.waits gate.new ≡ G.waits gate.old }
    ensures shut { G.is_shut gate.old → G.is_shut gate.new }
{
    let member = members.remove(at);
    let _ = lost(engine, member.key);
    gate.tell(member.place, end);
}

/// All go, each with this end where it has none: after rounds that answered so.
pub(crate) fn disband<D: Disk + Drop, H: NodeHash, G: Gate>(
    engine: &mut Engine<D, H>,
    gate: &mut G,
    members: &mut Vec<Member<G::R, G::W>>,
    end: SessionEnd,
    answer: &Result<(), FlushError>,
)
    requires cause { members.old.items ≢ [] → MayEndAll
        (ReadFailedOrCut G.R.has_failed G.is_troubled
        answer.now (G.waits gate.old)) (OneFailed G.W.has_failed) engine.old end }
    requires keyed { AreKeyed engine.old.state members.old.items }
    ensures keyed { AreKeyed engine.new.state members.new.items }
    ensures swarm { SwarmsOn D.conduct H.digest
        (ReadFailedOrCut G.R.has_failed G.is_troubled answer.now (G.waits gate.old))
        (OneFailed G.W.has_failed) G.gives G.R.remaining G.W.contents G.leads
        engine.old members.old.items gate.old engine.new members.new.items gate.new }
    ensures nobody { members.new.items ≡ [] }
    ensures still { members.old.items ≡ [] → engine.new ≡ engine.old }
    ensures complete { all_complete engine.new.state ≡ all_complete engine.old.state }
    ensures waits { G.waits gate.new ≡ G.waits gate.old }
    ensures shut { G.is_shut gate.old → G.is_shut gate.new }
{
    for gone in 0..members.len() {
        dismiss_last(engine, gate, members, end, answer);
    }
}

/// The last one goes, with this end where it has none: after rounds that answered so.
fn dismiss_last<D: Disk + Drop, H: NodeHash, G: Gate>(
    engine: &mut Engine<D, H>,
    gate: &mut G,
    members: &mut Vec<Member<G::R, G::W>>,
    end: SessionEnd,
    answer: &Result<(), FlushError>,
)
    requires some { 0 < length members.old.items }
    requires cause { MayEndAll (ReadFailedOrCut G.R.has_failed G.is_troubled answer.now
        (G.waits gate.old)) (OneFailed G.W.has_failed) engine.old end }
    requires keyed { AreKeyed engine.old.state members.old.items }
    ensures keyed { AreKeyed engine.new.state members.new.items }
    ensures swarm { SwarmsOn D.conduct H.digest
        (ReadFailedOrCut G.R.has_failed G.is_troubled answer.now (G.waits gate.old))
        (OneFailed G.W.has_failed) G.gives G.R.remaining G.W.contents G.leads
        engine.old members.old.items gate.old engine.new members.new.items gate.new }
    ensures shorter { length members.new.items + 1 ≡ length members.old.items }
    ensures complete { all_complete engine.new.state ≡ all_complete engine.old.state }
    ensures waits { G.waits gate.new ≡ G.waits gate.old }
    ensures shut { G.is_shut gate.old → G.is_shut gate.new }
{
    let at = members.len() - 1;
    let end = put_end_at::<G>(members.as_mut_slice(), at, end);
    leave(engine, gate, members, at, end);
}

/// Ends one, unless it has ended: gives its end.
fn put_end_at<G: Gate>(members: &mut [Member<G::R, G::W>], at: usize, end: SessionEnd) -> SessionEnd
    requires { at < length members.old }
    ensures moves { EachMovesBy G.R.remaining G.W.contents (λ key. []) (λ key. [])
        (λ key is. is ≡ end)
        members.old members.new }
    ensures ended { (d : Member G.R G.W) → (slice_index_or members.new at d).end ≡ Some result }
{
    put_end::<G>(&mut members[at], end)
}
