//! The calls of an engine that a swarm makes: each frame that is sent can be written, and no key is taken
//! back.
ghost use Rattle.std.specs.Prelude.{◌≡◌, ◌≢◌, Contains, OnOk};
ghost use Rattle.bt_machine.specs.declared.event.Event.TheVariants.{Connect, Feed, Next, Lost, Rechoke, Flush};
ghost use Rattle.bt_machine.specs.declared.event.Answer.TheVariants.{Connected, Fed, Stepped, Lost as LostAnswer, Rechoked, Flushed};
ghost use Rattle.bt_machine.specs.Law.{sent_by};
ghost use Rattle.bt_machine.specs.Report.{all_complete};
ghost use Rattle.bt_machine.specs.State.{PeerState};
ghost use Rattle.bt_engine.specs.Standing.{KeepsBlocks};
ghost use Rattle.bt_session.specs.Frames.{AllFit};
ghost use Rattle.bt_swarm.specs.Steps.{Steps};

use bt_book::PeerKey;
use bt_disk::Disk;
use bt_engine::Engine;
use bt_machine::{ConnectError, EngineError, FlushError, Output, events_send_what_fits};
use bt_tree::NodeHash;
use std::alloc::AllocError;

/// Connects a peer: gives its key, and what is to be sent.
pub(crate) fn connect<D: Disk + Drop, H: NodeHash>(
    engine: &mut Engine<D, H>,
) -> Result<(PeerKey, Output), ConnectError>
    ensures step { Steps D.conduct H.digest engine.old Connect (Connected result) engine.new }
    ensures fit { AllFit (sent_by (Connected result)) }
{
    engine.keeps_laws();
    events_send_what_fits(engine.hash());
    engine.connect()
}

/// Feeds bytes as a peer's. Errors: as those of the engine.
pub(crate) fn feed<D: Disk + Drop, H: NodeHash>(
    engine: &mut Engine<D, H>,
    key: PeerKey,
    bytes: &[u8],
) -> Result<(), EngineError>
    ensures step { Steps D.conduct H.digest engine.old (Feed key bytes.now)
        (Fed result) engine.new }
{
    engine.feed(key, bytes)
}

/// Takes the next wire event of a peer. Errors: as those of the engine.
pub(crate) fn next<D: Disk + Drop, H: NodeHash>(
    engine: &mut Engine<D, H>,
    key: PeerKey,
) -> Result<Option<Output>, EngineError>
    ensures step { Steps D.conduct H.digest engine.old (Next key) (Stepped result) engine.new }
    ensures fit { AllFit (sent_by (Stepped result)) }
{
    engine.keeps_laws();
    events_send_what_fits(engine.hash());
    engine.next(key)
}

/// Lets a peer go. Errors: it was gone already.
pub(crate) fn lost<D: Disk + Drop, H: NodeHash>(
    engine: &mut Engine<D, H>,
    key: PeerKey,
) -> Result<(), EngineError>
    ensures step { Steps D.conduct H.digest engine.old (Lost key) (LostAnswer result) engine.new }
    ensures away { (p : PeerState) → Contains engine.new.state.peers p → p.key ≢ key }
    ensures complete { all_complete engine.new.state ≡ all_complete engine.old.state }
{
    engine.keeps_laws();
    engine.lost(key)
}

/// Chooses the peers to serve anew. Errors: out of memory, and nothing changed.
pub(crate) fn rechoke<D: Disk + Drop, H: NodeHash>(
    engine: &mut Engine<D, H>,
) -> Result<Output, AllocError>
    ensures step { Steps D.conduct H.digest engine.old Rechoke (Rechoked result) engine.new }
    ensures fit { AllFit (sent_by (Rechoked result)) }
{
    engine.keeps_laws();
    events_send_what_fits(engine.hash());
    engine.rechoke()
}

/// Flushes the engine. Errors: a device failed, or the log would be too long.
pub(crate) fn flush<D: Disk + Drop, H: NodeHash>(
    engine: &mut Engine<D, H>,
) -> Result<(), FlushError>
    ensures step { Steps D.conduct H.digest engine.old Flush (Flushed result) engine.new }
    ensures blocks { OnOk result (KeepsBlocks D.conduct engine.new) }
    ensures complete { all_complete engine.new.state ≡ all_complete engine.old.state }
{
    engine.flush()
}
