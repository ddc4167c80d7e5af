//! The calls of an engine with one peer: each is an event of the machine, and leaves the peer or takes it.
ghost use Rattle.std.specs.Prelude.{[], ◌≡◌, ◌≤◌, length, take, IfOk, IfErr, OnErr};
ghost use Rattle.bt_machine.specs.declared.error.EngineError.TheVariants.{OutOfMemory};
ghost use Rattle.bt_machine.specs.declared.event.Event.TheVariants.{Connect, Feed, Next, Lost, Rechoke, Flush};
ghost use Rattle.bt_machine.specs.declared.event.Answer.TheVariants.{Connected, Fed, Stepped, Lost as LostAnswer, Rechoked, Flushed};
ghost use Rattle.bt_machine.specs.Law.{sent_by};
ghost use Rattle.bt_machine.specs.View.{StepsTo};
ghost use Rattle.bt_engine.specs.Standing.{Stands};
ghost use Rattle.bt_session.specs.Frames.{AllFit};
ghost use Rattle.bt_session.specs.PeerSteps.{IsAlone, HasNoOther, LeavesPeer};

use bt_book::PeerKey;
use bt_disk::Disk;
use bt_engine::Engine;
use bt_machine::{ConnectError, EngineError, FlushError, Output, events_send_what_fits};
use bt_tree::NodeHash;
use std::alloc::AllocError;

/// Connects the peer: gives its key, and what it is to be sent.
pub(crate) fn connect<D: Disk + Drop, H: NodeHash>(
    engine: &mut Engine<D, H>,
) -> Result<(PeerKey, Output), ConnectError>
    requires empty { engine.old.state.peers ≡ [] }
    ensures step { StepsTo D.conduct H.digest engine.old Connect (Connected result)
        engine.new }
    ensures stands { Stands D.conduct engine.old engine.new }
    ensures alone { IfOk result (λ joined. IsAlone joined.0 engine.new.state) }
    ensures fit { AllFit (sent_by (Connected result)) }
    ensures kept { OnErr result (engine.new ≡ engine.old) }
{
    engine.keeps_laws();
    events_send_what_fits(engine.hash());
    engine.connect()
}

/// Feeds the first `count` bytes of a buffer, all or none, which are the peer's. The buffer may hold other
/// bytes afterwards, and does not get shorter. Errors: out of memory.
pub(crate) fn feed<D: Disk + Drop, H: NodeHash>(
    engine: &mut Engine<D, H>,
    key: PeerKey,
    buffer: &mut Vec<u8>,
    count: usize,
) -> Result<(), EngineError>
    requires alone { IsAlone key engine.old.state }
    requires within { count ≤ length buffer.old.items }
    ensures step { StepsTo D.conduct H.digest engine.old
        (Feed key (take count buffer.old.items)) (Fed result) engine.new }
    ensures alone { IsAlone key engine.new.state }
    ensures refused { IfErr result (λ error. error ≡ OutOfMemory) }
    ensures long { length buffer.old.items ≤ length buffer.new.items }
{
    engine.feed_buffer(key, buffer, count)
}

/// Takes the next wire event of the peer. Errors: out of memory, and the peer is gone.
pub(crate) fn next<D: Disk + Drop, H: NodeHash>(
    engine: &mut Engine<D, H>,
    key: PeerKey,
) -> Result<Option<Output>, EngineError>
    requires alone { IsAlone key engine.old.state }
    ensures step { StepsTo D.conduct H.digest engine.old (Next key) (Stepped result)
        engine.new }
    ensures leaves { LeavesPeer key engine.old.state result engine.new.state }
    ensures fit { AllFit (sent_by (Stepped result)) }
{
    engine.keeps_laws();
    events_send_what_fits(engine.hash());
    engine.next(key)
}

/// Chooses the peers to serve anew. Errors: out of memory.
pub(crate) fn rechoke<D: Disk + Drop, H: NodeHash>(
    engine: &mut Engine<D, H>,
    key: PeerKey,
) -> Result<Output, AllocError>
    requires alone { IsAlone key engine.old.state }
    ensures step { StepsTo D.conduct H.digest engine.old Rechoke (Rechoked result)
        engine.new }
    ensures alone { IsAlone key engine.new.state }
    ensures fit { AllFit (sent_by (Rechoked result)) }
{
    engine.keeps_laws();
    events_send_what_fits(engine.hash());
    engine.rechoke()
}

/// Flushes the engine. Errors: a device failed, or the log would be too long.
pub(crate) fn flush<D: Disk + Drop, H: NodeHash>(
    engine: &mut Engine<D, H>,
    key: PeerKey,
) -> Result<(), FlushError>
    requires alone { IsAlone key engine.old.state }
    ensures step { StepsTo D.conduct H.digest engine.old Flush (Flushed result) engine.new }
    ensures alone { IsAlone key engine.new.state }
{
    engine.flush()
}

/// Removes the peer, where it is not gone already.
pub(crate) fn remove<D: Disk + Drop, H: NodeHash>(
    engine: &mut Engine<D, H>,
    key: PeerKey,
) -> Result<(), EngineError>
    requires no_other { HasNoOther key engine.old.state }
    ensures step { StepsTo D.conduct H.digest engine.old (Lost key) (LostAnswer result)
        engine.new }
    ensures gone { engine.new.state.peers ≡ [] }
{
    engine.lost(key)
}
