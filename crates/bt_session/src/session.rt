//! A whole session.
ghost use Rattle.std.specs.Prelude.{[], ◌≡◌, IfOk, IfErr, IsOk, OnErr};
ghost use Rattle.bt_machine.specs.declared.event.Event.TheVariants.{Connect};
ghost use Rattle.bt_machine.specs.declared.event.Answer.TheVariants.{Connected};
ghost use Rattle.bt_machine.specs.State.{EngineView};
ghost use Rattle.bt_machine.specs.View.{StepsTo};
ghost use Rattle.bt_engine.specs.Standing.{Stands};
ghost use Rattle.bt_session.specs.declared.end.SessionEnd.TheVariants.{ReadFault, WriteFault};
ghost use Rattle.bt_session.specs.declared.flushing.Flushing.TheVariants.{Never};
ghost use Rattle.bt_session.specs.Failures.{EndsFlushed, OnlyAfterFailure, StaysFlushed};
ghost use Rattle.bt_session.specs.Frames.{AllFit};
ghost use Rattle.bt_session.specs.Progress.{Place, place};
ghost use Rattle.bt_session.specs.Ends.{IsBetweenTurns, HasEnded, IsSession};
ghost use Rattle.bt_session.specs.Parts.{GoesOn};
ghost use Rattle.bt_session.specs.PeerSteps.{IsAlone, HasNoOther};

use crate::buffers::SessionBuffers;
use crate::calls::{connect, remove};
use crate::end::SessionEnd;
use crate::flushing::{Flushing, flush_if_due};
use crate::frames::write_frames;
use crate::law::sessions_stand;
use crate::turn::{Partner, end_after, take_turn};
use crate::watched::{WatchedReader, WatchedWriter};
use bt_disk::Disk;
use bt_engine::Engine;
use bt_machine::{ConnectError, FlushError, Output};
use bt_tree::NodeHash;
use std::alloc::Global;

/// Connects a peer to the engine and serves it: at most `turns` times what one read of up to 16,384 bytes
/// gave is fed, all wire events in it are taken, and the peers to serve are chosen anew. What the engine
/// sends to the peer is written at once. At every end the peer is removed. With `until_complete` the session
/// ends as soon as all files are complete.
///
/// Errors: no peer is connected, for want of memory or of a key. Then nothing was read or written.
pub fn run_session<D: Disk + Drop, H: NodeHash, R: WatchedReader, W: WatchedWriter>(
    alloc: Global,
    engine: &mut Engine<D, H>,
    reader: &mut R,
    writer: &mut W,
    until_complete: bool,
    turns: u64,
) -> Result<SessionEnd, ConnectError>
    requires no_peer { engine.old.state.peers ≡ [] }
    ensures session { IfOk result (λ end. IsSession D.conduct H.digest until_complete Never turns
        (place engine.old (R.remaining reader.old) (W.contents writer.old)) (Ok end)
        (place engine.new (R.remaining reader.new) (W.contents writer.new))) }
    ensures stands { Stands D.conduct engine.old engine.new }
    ensures gone { engine.new.state.peers ≡ [] }
    ensures refused { IfErr result (λ error.
        StepsTo D.conduct H.digest engine.old Connect (Connected (Err error)) engine.new) }
    ensures kept { OnErr result (engine.new ≡ engine.old) }
    ensures unread { OnErr result (reader.new ≡ reader.old) }
    ensures unwritten { OnErr result (writer.new ≡ writer.old) }
    ensures read_fault { IfOk result (OnlyAfterFailure ReadFault (R.has_failed reader.new)) }
    ensures write_fault { IfOk result (OnlyAfterFailure WriteFault (W.has_failed writer.new)) }
    ensures flushed { IfOk result (λ end. EndsFlushed (W.is_flushed writer.new) (Ok end)) }
{
    let never = Flushing::Never;
    match run_session_with_flushes(alloc, engine, reader, writer, until_complete, turns, never) {
        Ok(Ok(end)) => Ok(end),
        // It is never flushed, so no flush is refused.
        Ok(Err(_)) => unreachable!(),
        Err(error) => Err(error),
    }
}

/// The same as `run_session`, but that the engine is flushed after each turn after which that is due. A flush that
/// is refused ends the session, and is told in place of its end.
///
/// Errors: no peer is connected, for want of memory or of a key. Then nothing was read or written.
pub fn run_session_with_flushes<D: Disk + Drop, H: NodeHash, R: WatchedReader, W: WatchedWriter>(
    alloc: Global,
    engine: &mut Engine<D, H>,
    reader: &mut R,
    writer: &mut W,
    until_complete: bool,
    turns: u64,
    flushing: Flushing,
) -> Result<Result<SessionEnd, FlushError>, ConnectError>
    requires no_peer { engine.old.state.peers ≡ [] }
    ensures session { IfOk result (λ end. IsSession D.conduct H.digest until_complete flushing turns
        (place engine.old (R.remaining reader.old) (W.contents writer.old)) end
        (place engine.new (R.remaining reader.new) (W.contents writer.new))) }
    ensures unflushed { flushing ≡ Never → IfOk result IsOk }
    ensures stands { Stands D.conduct engine.old engine.new }
    ensures gone { engine.new.state.peers ≡ [] }
    ensures refused { IfErr result (λ error.
        StepsTo D.conduct H.digest engine.old Connect (Connected (Err error)) engine.new) }
    ensures kept { OnErr result (engine.new ≡ engine.old) }
    ensures unread { OnErr result (reader.new ≡ reader.old) }
    ensures unwritten { OnErr result (writer.new ≡ writer.old) }
    ensures read_fault { IfOk result (λ ended.
        IfOk ended (OnlyAfterFailure ReadFault (R.has_failed reader.new))) }
    ensures write_fault { IfOk result (λ ended.
        IfOk ended (OnlyAfterFailure WriteFault (W.has_failed writer.new))) }
    ensures flushed { IfOk result (EndsFlushed (W.is_flushed writer.new)) }
{
    sessions_stand::<D, H>(engine.hash());
    engine.keeps_laws();
    let (key, greeting) = connect(engine)?;
    let partner = Partner {
        key,
        until_complete,
        flushing,
    };
    let end = converse(alloc, engine, partner, &greeting, reader, writer, turns);
    // A peer that was closed is gone already.
    let _ = remove(engine, key);
    Ok(end)
}

/// Makes the buffers of a session, and converses with the peer in them to its end, which is Memory where memory for
/// them is refused. Errors: a flush was refused, which was the end.
fn converse<D: Disk + Drop, H: NodeHash, R: WatchedReader, W: WatchedWriter>(
    alloc: Global,
    engine: &mut Engine<D, H>,
    partner: Partner,
    greeting: &Output,
    reader: &mut R,
    writer: &mut W,
    turns: u64,
) -> Result<SessionEnd, FlushError>
    requires alone { IsAlone partner.key engine.old.state }
    requires fit { AllFit greeting.now.send }
    ensures ends { (first : EngineView D)
        → StepsTo D.conduct H.digest first Connect
        (Connected (Ok (partner.key, greeting.now))) engine.old
        → HasEnded D.conduct H.digest partner.key partner.until_complete
        partner.flushing turns
        (place first (R.remaining reader.old) (W.contents writer.old)) result
        (place engine.new (R.remaining reader.new) (W.contents writer.new)) }
    ensures no_other { HasNoOther partner.key engine.new.state }
    ensures read_fault { IfOk result (OnlyAfterFailure ReadFault (R.has_failed reader.new)) }
    ensures write_fault { IfOk result (OnlyAfterFailure WriteFault (W.has_failed writer.new)) }
    ensures flushed { EndsFlushed (W.is_flushed writer.new) result }
{
    let Ok(mut buffers) = SessionBuffers::new(alloc) else {
        return Ok(SessionEnd::Memory);
    };
    converse_in(
        engine,
        partner,
        greeting,
        reader,
        writer,
        &mut buffers,
        turns,
    )
}

/// Greets the peer, and takes turns with it to the session's end, in these buffers. Errors: a flush was refused,
/// which was the end.
fn converse_in<D: Disk + Drop, H: NodeHash, R: WatchedReader, W: WatchedWriter>(
    engine: &mut Engine<D, H>,
    partner: Partner,
    greeting: &Output,
    reader: &mut R,
    writer: &mut W,
    buffers: &mut SessionBuffers,
    turns: u64,
) -> Result<SessionEnd, FlushError>
    requires alone { IsAlone partner.key engine.old.state }
    requires fit { AllFit greeting.now.send }
    ensures ends { (first : EngineView D)
        → StepsTo D.conduct H.digest first Connect
        (Connected (Ok (partner.key, greeting.now))) engine.old
        → HasEnded D.conduct H.digest partner.key partner.until_complete
        partner.flushing turns
        (place first (R.remaining reader.old) (W.contents writer.old)) result
        (place engine.new (R.remaining reader.new) (W.contents writer.new)) }
    ensures no_other { HasNoOther partner.key engine.new.state }
    ensures read_fault { IfOk result (OnlyAfterFailure ReadFault (R.has_failed reader.new)) }
    ensures write_fault { IfOk result (OnlyAfterFailure WriteFault (W.has_failed writer.new)) }
    ensures flushed { EndsFlushed (W.is_flushed writer.new) result }
{
    let alloc = buffers.alloc;
    match write_frames(
        alloc,
        writer,
        partner.key,
        &greeting.send,
        &mut buffers.outgoing,
    ) {
        Ok(()) => match end_after(engine, partner.until_complete, None) {
            Some(end) => Ok(end),
            None => take_turns(engine, partner, reader, writer, buffers, turns),
        },
        Err(end) => Ok(end),
    }
}

/// Takes turns with the peer, at most `turns`, to the session's end, and flushes the engine between them,
/// where that is due. Errors: a flush was refused, which was the end.
fn take_turns<D: Disk + Drop, H: NodeHash, R: WatchedReader, W: WatchedWriter>(
    engine: &mut Engine<D, H>,
    partner: Partner,
    reader: &mut R,
    writer: &mut W,
    buffers: &mut SessionBuffers,
    turns: u64,
) -> Result<SessionEnd, FlushError>
    requires alone { IsAlone partner.key engine.old.state }
    ensures ends { (first : Place D)
        → GoesOn D.conduct H.digest partner.key partner.until_complete partner.flushing
        (IsBetweenTurns partner.until_complete) first 0
        (place engine.old (R.remaining reader.old) (W.contents writer.old))
        → HasEnded D.conduct H.digest partner.key partner.until_complete
        partner.flushing turns first result
        (place engine.new (R.remaining reader.new) (W.contents writer.new)) }
    ensures no_other { HasNoOther partner.key engine.new.state }
    ensures read_fault { IfOk result (OnlyAfterFailure ReadFault (R.has_failed reader.new)) }
    ensures write_fault { IfOk result (OnlyAfterFailure WriteFault (W.has_failed writer.new)) }
    ensures flushed { StaysFlushed W.is_flushed (Ok WriteFault) writer.old result writer.new }
{
    for taken in 0..turns {
        match take_turn(engine, partner, reader, writer, buffers) {
            Ok(()) => flush_if_due(engine, partner, taken + 1)?,
            Err(end) => return Ok(end),
        }
    }
    Ok(SessionEnd::TurnsSpent)
}
