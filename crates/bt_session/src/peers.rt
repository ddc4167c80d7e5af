//! Peers in their turns.
ghost use Rattle.std.specs.Prelude.{[], ◌≡◌, length, All, Ok, OnOk};
ghost use Rattle.bt_engine.specs.Leads.{LeadsTo, Stands};
ghost use Rattle.bt_session.specs.declared.end.SessionEnd.TheVariants.{ReadFault, WriteFault};
ghost use Rattle.bt_session.specs.declared.flushing.Flushing.TheVariants.{Never};
ghost use Rattle.bt_session.specs.declared.peer_end.PeerEnd.TheVariants.{Session};
ghost use Rattle.bt_session.specs.Failures.{OneFailed, OnlyAfterFailure};
ghost use Rattle.bt_session.specs.Peers.{IsTried, IsTriedAndTold, InTurn};

use crate::flushing::Flushing;
use crate::link::Link;
use crate::peer::meet_peer;
use crate::peer_end::PeerEnd;
use bt_disk::Disk;
use bt_engine::{Engine, what_leads_on_stands};
use bt_machine::FlushError;
use bt_tree::NodeHash;
use std::alloc::Global;

/// Dials each peer in its turn, once, until the engine is complete. A peer that is reached has a session
/// until then, of at most `turns` turns. `ends` is what came of each: Untried after the last that was
/// dialled.
pub fn run_peers<D: Disk + Drop, H: NodeHash, L: Link>(
    alloc: Global,
    engine: &mut Engine<D, H>,
    links: &mut [L],
    ends: &mut [PeerEnd],
    turns: u64,
)
    requires same_length { length links.old ≡ length ends.old }
    requires undialled { All (λ link. L.dials link ≡ 0) links.old }
    requires no_peer { engine.old.state.peers ≡ [] }
    ensures peers { InTurn (IsTried D.conduct H.digest L.dials L.failures L.gives
        L.R.remaining L.W.contents Never turns) engine.old links.old ends.new links.new
        (Ok tt) engine.new }
    ensures read_fault { All (OnlyAfterFailure (Session ReadFault) (OneFailed L.R.has_failed))
        ends.new }
    ensures write_fault { All (OnlyAfterFailure (Session WriteFault) (OneFailed L.W.has_failed))
        ends.new }
    ensures gone { engine.new.state.peers ≡ [] }
    ensures run { LeadsTo D.conduct H.digest engine.old engine.new }
    ensures stands { Stands D.conduct engine.old engine.new }
{
    // It is never flushed, so no flush is refused.
    let _ = run_peers_with_flushes(alloc, engine, links, ends, turns, Flushing::Never);
}

/// The same as `run_peers`, but that the engine is flushed in each session, after each turn after which that is due,
/// and behind each session, unless it is never flushed.
///
/// Errors: a flush was refused. No further peer is dialled then; and a session that it ended is told as one
/// whose reader failed.
pub fn run_peers_with_flushes<D: Disk + Drop, H: NodeHash, L: Link>(
    alloc: Global,
    engine: &mut Engine<D, H>,
    links: &mut [L],
    ends: &mut [PeerEnd],
    turns: u64,
    flushing: Flushing,
) -> Result<(), FlushError>
    requires same_length { length links.old ≡ length ends.old }
    requires undialled { All (λ link. L.dials link ≡ 0) links.old }
    requires no_peer { engine.old.state.peers ≡ [] }
    ensures peers { InTurn (IsTried D.conduct H.digest L.dials L.failures L.gives
        L.R.remaining L.W.contents flushing turns) engine.old links.old ends.new links.new result
        engine.new }
    ensures unflushed { flushing ≡ Never → result ≡ Ok tt }
    ensures read_fault { OnOk result
        (All (OnlyAfterFailure (Session ReadFault) (OneFailed L.R.has_failed)) ends.new) }
    ensures told { InTurn (IsTriedAndTold (OneFailed L.R.has_failed) D.conduct H.digest L.dials
        L.failures L.gives L.R.remaining L.W.contents flushing turns) engine.old links.old ends.new
        links.new result engine.new }
    ensures write_fault { All (OnlyAfterFailure (Session WriteFault) (OneFailed L.W.has_failed))
        ends.new }
    ensures gone { engine.new.state.peers ≡ [] }
    ensures run { LeadsTo D.conduct H.digest engine.old engine.new }
    ensures stands { Stands D.conduct engine.old engine.new }
{
    what_leads_on_stands::<D, H>(engine.hash());
    engine.keeps_laws();
    ends.fill(PeerEnd::Untried);
    for (i, link) in links.iter_mut().enumerate() {
        if engine.is_complete() {
            break;
        }
        try_peer(alloc, engine, link, &mut ends[i], turns, flushing)?;
    }
    Ok(())
}

/// Dials a peer, and has a session with it until the engine is complete, where it is reached; with flushes, and
/// with its end in place of the one that stood there. Errors: a flush was refused.
fn try_peer<D: Disk + Drop, H: NodeHash, L: Link>(
    alloc: Global,
    engine: &mut Engine<D, H>,
    link: &mut L,
    end: &mut PeerEnd,
    turns: u64,
    flushing: Flushing,
) -> Result<(), FlushError>
    requires undialled { L.dials link.old ≡ 0 }
    requires no_peer { engine.old.state.peers ≡ [] }
    ensures tried { IsTriedAndTold (OneFailed L.R.has_failed) D.conduct H.digest L.dials L.failures
        L.gives L.R.remaining L.W.contents flushing turns engine.old link.old end.new result
        link.new engine.new }
    ensures unflushed { flushing ≡ Never → result ≡ Ok tt }
    ensures write_fault { OnlyAfterFailure (Session WriteFault) (OneFailed L.W.has_failed) end.new }
    ensures gone { engine.new.state.peers ≡ [] }
    ensures run { LeadsTo D.conduct H.digest engine.old engine.new }
{
    let reached = link.dial();
    let (met, flushed) = meet_peer(alloc, engine, reached, true, turns, flushing);
    *end = met;
    flushed
}
