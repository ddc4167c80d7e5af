//! One peer.
ghost use Rattle.std.specs.Prelude.{[], ◌≡◌, ◌⊎◌, Ok};
ghost use Rattle.bt_engine.specs.Leads.{LeadsTo, Stands};
ghost use Rattle.bt_session.specs.declared.end.SessionEnd.TheVariants.{ReadFault, WriteFault};
ghost use Rattle.bt_session.specs.declared.flushing.Flushing.TheVariants.{Never};
ghost use Rattle.bt_session.specs.declared.peer_end.PeerEnd.TheVariants.{Session};
ghost use Rattle.bt_session.specs.Flushing.{is_ever_flushed};
ghost use Rattle.bt_session.specs.Failures.{OneFailed, OnlyAfterFailure};
ghost use Rattle.bt_session.specs.Peer.{EndsAs, IsCutShort, IsFlushedWhere};

use crate::end::SessionEnd;
use crate::flushing::Flushing;
use crate::peer_end::PeerEnd;
use crate::session::run_session_with_flushes;
use crate::watched::{WatchedReader, WatchedWriter};
use bt_disk::Disk;
use bt_engine::{Engine, what_leads_on_stands};
use bt_machine::FlushError;
use bt_tree::NodeHash;
use std::alloc::Global;

/// Has a session with a peer that was reached, which gave what is read from it and written to it. Unless it is
/// never flushed, the engine is flushed behind the session too. Gives what the last flush answered, Ok where there
/// was none. One that is refused in the session ends it, and that is told as the end of one whose reader failed.
pub fn meet_peer<D: Disk + Drop, H: NodeHash, R: WatchedReader + Drop, W: WatchedWriter + Drop>(
    alloc: Global,
    engine: &mut Engine<D, H>,
    reached: Option<(R, W)>,
    until_complete: bool,
    turns: u64,
    flushing: Flushing,
) -> (PeerEnd, Result<(), FlushError>)
    requires no_peer { engine.old.state.peers ≡ [] }
    ensures ended { EndsAs D.conduct H.digest R.remaining W.contents until_complete
        flushing turns reached engine.old result.0 result.1 engine.new }
    ensures unflushed { flushing ≡ Never → result.1 ≡ Ok tt }
    ensures read_fault { OnlyAfterFailure (Session ReadFault) (OneFailed R.has_failed
        ⊎ IsCutShort D.conduct H.digest R.remaining W.contents until_complete flushing turns
        result.1 reached engine.old engine.new) result.0 }
    ensures write_fault { OnlyAfterFailure (Session WriteFault) (OneFailed W.has_failed) result.0 }
    ensures gone { engine.new.state.peers ≡ [] }
    ensures run { LeadsTo D.conduct H.digest engine.old engine.new }
    ensures stands { Stands D.conduct engine.old engine.new }
{
    what_leads_on_stands::<D, H>(engine.hash());
    engine.keeps_laws();
    let Some((mut reader, mut writer)) = reached else {
        return (PeerEnd::Unreachable, Ok(()));
    };
    match run_session_with_flushes(
        alloc,
        engine,
        &mut reader,
        &mut writer,
        until_complete,
        turns,
        flushing,
    ) {
        Ok(Ok(end)) => (PeerEnd::Session(end), flush_behind(engine, flushing)),
        Ok(Err(error)) => (PeerEnd::Session(SessionEnd::ReadFault), Err(error)),
        Err(error) => (PeerEnd::Refused(error), Ok(())),
    }
}

/// Flushes an engine after a session, unless it is never flushed.
fn flush_behind<D: Disk + Drop, H: NodeHash>(
    engine: &mut Engine<D, H>,
    flushing: Flushing,
) -> Result<(), FlushError>
    requires no_peer { engine.old.state.peers ≡ [] }
    ensures flushed { IsFlushedWhere D.conduct H.digest (is_ever_flushed flushing) engine.old
        result engine.new }
    ensures unflushed { flushing ≡ Never → result ≡ Ok tt }
    ensures gone { engine.new.state.peers ≡ [] }
    ensures run { LeadsTo D.conduct H.digest engine.old engine.new }
{
    match flushing {
        Flushing::Never => Ok(()),
        Flushing::Each(_) => engine.flush(),
    }
}
