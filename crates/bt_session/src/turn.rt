//! The turns of a session: what a reader gives is fed, its wire events are taken, the peers to serve are
//! chosen anew; and what these send is written.
ghost use Rattle.std.specs.Prelude.{◌≢◌, IfOk, IfErr, OnOk};
ghost use Rattle.bt_session.specs.declared.end.SessionEnd.TheVariants.{ReadFault, WriteFault};
ghost use Rattle.bt_session.specs.Failures.{OnlyAfterFailure, StaysFlushed};
ghost use Rattle.bt_session.specs.Progress.{place};
ghost use Rattle.bt_session.specs.Ends.{IsBetweenTurns};
ghost use Rattle.bt_session.specs.Parts.{AwaitsWireEvent, AwaitsChoice, AwaitsAfter, IsTurnOver, one_more_turn, IsPart, WritesPart, ReadsPart, EndsAfter};
ghost use Rattle.bt_session.specs.PeerSteps.{IsAlone, HasNoOther, StaysAlone};

use crate::buffers::SessionBuffers;
use crate::calls::{next, rechoke};
use crate::end::SessionEnd;
use crate::flushing::Flushing;
use crate::frames::write_frames;
use crate::incoming::Incoming;
use crate::watched::{WatchedReader, WatchedWriter};
use bt_book::PeerKey;
use bt_disk::Disk;
use bt_engine::Engine;
use bt_machine::Why;
use bt_tree::NodeHash;

/// The peer of a session, whether it goes on until all files are complete only, and when the engine is flushed.
#[derive(Clone, Copy)]
pub(crate) struct Partner {
    pub(crate) key: PeerKey,
    pub(crate) until_complete: bool,
    pub(crate) flushing: Flushing,
}

/// One turn. Errors: the session ended in it.
pub(crate) fn take_turn<D: Disk + Drop, H: NodeHash, R: WatchedReader, W: WatchedWriter>(
    engine: &mut Engine<D, H>,
    partner: Partner,
    reader: &mut R,
    writer: &mut W,
    buffers: &mut SessionBuffers,
) -> Result<(), SessionEnd>
    requires alone { IsAlone partner.key engine.old.state }
    ensures part { IsPart D.conduct H.digest partner
        (IsBetweenTurns partner.until_complete) one_more_turn
        (place engine.old (R.remaining reader.old) (W.contents writer.old)) result
        (λ _. IsTurnOver)
        (place engine.new (R.remaining reader.new) (W.contents writer.new)) }
    ensures alone { OnOk result (IsAlone partner.key engine.new.state) }
    ensures no_other { HasNoOther partner.key engine.new.state }
    ensures read_fault { IfErr result (OnlyAfterFailure ReadFault (R.has_failed reader.new)) }
    ensures write_fault { IfErr result (OnlyAfterFailure WriteFault (W.has_failed writer.new)) }
    ensures flushed { StaysFlushed W.is_flushed (Err WriteFault) writer.old result writer.new }
{
    receive(engine, partner, reader, &mut buffers.incoming)?;
    take_events(engine, partner, writer, buffers)?;
    choose(engine, partner, writer, buffers)
}

/// Feeds what the reader gives next. Errors: Ended where it has no more bytes; ReadFault; Memory.
fn receive<D: Disk + Drop, H: NodeHash, R: WatchedReader>(
    engine: &mut Engine<D, H>,
    partner: Partner,
    reader: &mut R,
    incoming: &mut Incoming,
) -> Result<(), SessionEnd>
    requires alone { IsAlone partner.key engine.old.state }
    ensures part { ReadsPart D.conduct H.digest partner (IsBetweenTurns partner.until_complete)
        engine.old (R.remaining reader.old) result (λ _. AwaitsWireEvent partner)
        engine.new (R.remaining reader.new) }
    ensures alone { IsAlone partner.key engine.new.state }
    ensures read_fault { IfErr result (OnlyAfterFailure ReadFault (R.has_failed reader.new)) }
    ensures no_write_fault { IfErr result (λ end. end ≢ WriteFault) }
{
    let count = incoming.read(reader)?;
    if count == 0 {
        return Err(SessionEnd::Ended);
    }
    match incoming.feed(engine, partner.key, count) {
        Ok(()) => Ok(()),
        Err(_) => Err(SessionEnd::Memory),
    }
}

/// Takes the peer's wire events, until none has come whole. Errors: the session ended.
fn take_events<D: Disk + Drop, H: NodeHash, W: WatchedWriter>(
    engine: &mut Engine<D, H>,
    partner: Partner,
    writer: &mut W,
    buffers: &mut SessionBuffers,
) -> Result<(), SessionEnd>
    requires alone { IsAlone partner.key engine.old.state }
    ensures part { WritesPart D.conduct H.digest partner (AwaitsWireEvent partner)
        engine.old (W.contents writer.old) result (λ _. AwaitsChoice partner)
        engine.new (W.contents writer.new) }
    ensures alone { OnOk result (IsAlone partner.key engine.new.state) }
    ensures no_other { HasNoOther partner.key engine.new.state }
    ensures write_fault { IfErr result (OnlyAfterFailure WriteFault (W.has_failed writer.new)) }
    ensures no_read_fault { IfErr result (λ end. end ≢ ReadFault) }
    ensures flushed { StaysFlushed W.is_flushed (Err WriteFault) writer.old result writer.new }
{
    while take_event(engine, partner, writer, buffers)? {}
    Ok(())
}

/// Takes the peer's next wire event, and writes what is sent to the peer: false where none has come whole.
/// Errors: the session ended.
fn take_event<D: Disk + Drop, H: NodeHash, W: WatchedWriter>(
    engine: &mut Engine<D, H>,
    partner: Partner,
    writer: &mut W,
    buffers: &mut SessionBuffers,
) -> Result<bool, SessionEnd>
    requires alone { IsAlone partner.key engine.old.state }
    ensures part { WritesPart D.conduct H.digest partner (AwaitsWireEvent partner)
        engine.old (W.contents writer.old) result (AwaitsAfter partner)
        engine.new (W.contents writer.new) }
    ensures stays { IfOk result (StaysAlone partner.key engine.old.state engine.new.state) }
    ensures no_other { HasNoOther partner.key engine.new.state }
    ensures write_fault { IfErr result (OnlyAfterFailure WriteFault (W.has_failed writer.new)) }
    ensures no_read_fault { IfErr result (λ end. end ≢ ReadFault) }
    ensures flushed { StaysFlushed W.is_flushed (Err WriteFault) writer.old result writer.new }
{
    match next(engine, partner.key) {
        Ok(Some(output)) => {
            let alloc = buffers.alloc;
            let buffer = &mut buffers.outgoing;
            write_frames(alloc, writer, partner.key, &output.send, buffer)?;
            match end_after(engine, partner.until_complete, output.close) {
                Some(end) => Err(end),
                None => Ok(true),
            }
        }
        Ok(None) => Ok(false),
        Err(_) => Err(SessionEnd::Memory),
    }
}

/// How the session ends after an output of its peer, if it does: the peer was closed, or all files are
/// complete.
pub(crate) fn end_after<D: Disk + Drop, H: NodeHash>(
    engine: &Engine<D, H>,
    until_complete: bool,
    close: Option<Why>,
) -> Option<SessionEnd>
    ensures { EndsAfter until_complete engine.now.state close result }
{
    match close {
        Some(why) => Some(SessionEnd::Closed(why)),
        None if until_complete && engine.is_complete() => Some(SessionEnd::Complete),
        None => None,
    }
}

/// Chooses the peers to serve anew, and writes what is sent to the peer. Errors: WriteFault, Memory.
fn choose<D: Disk + Drop, H: NodeHash, W: WatchedWriter>(
    engine: &mut Engine<D, H>,
    partner: Partner,
    writer: &mut W,
    buffers: &mut SessionBuffers,
) -> Result<(), SessionEnd>
    requires alone { IsAlone partner.key engine.old.state }
    ensures part { WritesPart D.conduct H.digest partner (AwaitsChoice partner)
        engine.old (W.contents writer.old) result (λ _. IsTurnOver)
        engine.new (W.contents writer.new) }
    ensures alone { IsAlone partner.key engine.new.state }
    ensures write_fault { IfErr result (OnlyAfterFailure WriteFault (W.has_failed writer.new)) }
    ensures no_read_fault { IfErr result (λ end. end ≢ ReadFault) }
    ensures flushed { StaysFlushed W.is_flushed (Err WriteFault) writer.old result writer.new }
{
    match rechoke(engine, partner.key) {
        Ok(output) => {
            let alloc = buffers.alloc;
            write_frames(
                alloc,
                writer,
                partner.key,
                &output.send,
                &mut buffers.outgoing,
            )
        }
        Err(_) => Err(SessionEnd::Memory),
    }
}
