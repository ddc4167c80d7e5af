//! The loop of a swarm.
ghost use Rattle.std.specs.Prelude.{[], ◌≡◌, ◌≢◌, ◌+◌, ◌-◌, ◌<◌, ◌^◌, ◌⊎◌, true, IfErr, OnOk};
ghost use Rattle.bt_machine.specs.Report.{all_complete};
ghost use Rattle.bt_engine.specs.Leads.{LeadsTo};
ghost use Rattle.bt_engine.specs.Standing.{Stands, KeepsBlocks};
ghost use Rattle.bt_session.specs.declared.end.SessionEnd.TheVariants.{Complete, ReadFault};
ghost use Rattle.bt_session.specs.declared.flushing.Flushing.TheVariants.{Never};
ghost use Rattle.bt_session.specs.Failures.{OneFailed};
ghost use Rattle.bt_swarm.specs.Causes.{ReadFailed, IsRefused};
ghost use Rattle.bt_swarm.specs.Moves.{AreKeyed};
ghost use Rattle.bt_swarm.specs.Steps.{IsComplete, MayBeFlushed};
ghost use Rattle.bt_swarm.specs.Swarm.{HasServed, SwarmsOn, IsAtEnd, IsOver, ReadFailedOrCut};

use crate::buffers::SwarmBuffers;
use crate::calls::flush;
use crate::gate::Gate;
use crate::member::{Member, takes_more};
use crate::swarm::{admit, disband, let_go};
use crate::turn::give_turns;
use bt_disk::Disk;
use bt_engine::{Engine, what_leads_on_stands};
use bt_machine::FlushError;
use bt_session::{Flushing, SessionEnd};
use bt_tree::NodeHash;
use std::alloc::Global;

/// Serves all connections of a gate at once, until nobody is there and nobody is to come, or with
/// `until_complete` until all files are complete; then all go. The engine is flushed after so many turns of all
/// together, which are counted once a round, and once more at the end; or never.
///
/// Errors: a flush was refused, and all went.
pub fn run_swarm<D: Disk + Drop, H: NodeHash, G: Gate>(
    alloc: Global,
    engine: &mut Engine<D, H>,
    gate: &mut G,
    until_complete: bool,
    flushing: Flushing,
) -> Result<(), FlushError>
    requires no_peer { engine.old.state.peers ≡ [] }
    requires unwaited { G.waits gate.old ≡ 0 }
    ensures swarm { HasServed D.conduct H.digest
        (ReadFailedOrCut G.R.has_failed G.is_troubled result (G.waits gate.new))
        (OneFailed G.W.has_failed) G.gives G.R.remaining G.W.contents G.leads
        engine.old gate.old engine.new gate.new }
    ensures over { OnOk result (IsOver (MayBeFlushed D.conduct H.digest) until_complete
        engine.new (G.is_shut gate.new) (G.waits gate.new)) }
    ensures refused { IfErr result
        (λ error. IsRefused D.conduct H.digest engine.old error engine.new) }
    ensures gone { engine.new.state.peers ≡ [] }
    ensures run { LeadsTo D.conduct H.digest engine.old engine.new }
    ensures stands { Stands D.conduct engine.old engine.new }
    ensures flushed { flushing ≢ Never → OnOk result (KeepsBlocks D.conduct engine.new) }
{
    what_leads_on_stands::<D, H>(engine.hash());
    engine.keeps_laws();
    serve_all(alloc, engine, gate, until_complete, flushing)?;
    flush_last(engine, flushing)
}

/// The same without the last flush.
fn serve_all<D: Disk + Drop, H: NodeHash, G: Gate>(
    alloc: Global,
    engine: &mut Engine<D, H>,
    gate: &mut G,
    until_complete: bool,
    flushing: Flushing,
) -> Result<(), FlushError>
    requires no_peer { engine.old.state.peers ≡ [] }
    requires unwaited { G.waits gate.old ≡ 0 }
    ensures swarm { HasServed D.conduct H.digest
        (ReadFailedOrCut G.R.has_failed G.is_troubled result (G.waits gate.new))
        (OneFailed G.W.has_failed) G.gives G.R.remaining G.W.contents G.leads
        engine.old gate.old engine.new gate.new }
    ensures over { OnOk result (IsOver (λ asked now. now ≡ asked) until_complete
        engine.new (G.is_shut gate.new) (G.waits gate.new)) }
    ensures refused { IfErr result
        (λ error. IsRefused D.conduct H.digest engine.old error engine.new) }
    ensures gone { engine.new.state.peers ≡ [] }
{
    let mut members = Vec::new(alloc);
    let mut buffers = SwarmBuffers::new(alloc);
    let mut pace = Pace {
        flushing,
        turns: 0,
        one_went: false,
    };
    let answer = take_rounds(
        engine,
        gate,
        &mut members,
        until_complete,
        &mut pace,
        &mut buffers,
    );
    let end = end_of_all(engine, until_complete);
    disband(engine, gate, &mut members, end, &answer);
    answer
}

/// How all end that are there when a swarm is over.
fn end_of_all<D: Disk + Drop, H: NodeHash>(
    engine: &Engine<D, H>,
    until_complete: bool,
) -> SessionEnd
    ensures { ((result ≡ Complete) × IsComplete engine.now)
        ⊎ ((result ≡ ReadFault) × (until_complete ≡ true → ¬ IsComplete engine.now)) }
{
    if until_complete && engine.is_complete() {
        SessionEnd::Complete
    } else {
        SessionEnd::ReadFault
    }
}

/// Flushes the engine, unless it is never flushed. Errors: the flush was refused.
fn flush_last<D: Disk + Drop, H: NodeHash>(
    engine: &mut Engine<D, H>,
    flushing: Flushing,
) -> Result<(), FlushError>
    ensures step { MayBeFlushed D.conduct H.digest engine.old engine.new }
    ensures refused { IfErr result
        (λ error. IsRefused D.conduct H.digest engine.old error engine.new) }
    ensures complete { all_complete engine.new.state ≡ all_complete engine.old.state }
    ensures flushed { flushing ≢ Never → OnOk result (KeepsBlocks D.conduct engine.new) }
{
    match flushing {
        Flushing::Never => Ok(()),
        Flushing::Each(_) => flush(engine),
    }
}

/// What is kept between rounds.
#[derive(Clone, Copy)]
struct Pace {
    /// After how many turns a flush is due.
    flushing: Flushing,
    /// How many turns there were since the last.
    turns: u64,
    /// Whether one went since the peers to serve were chosen.
    one_went: bool,
}

/// Rounds, until the swarm is over. Errors: a flush was refused.
fn take_rounds<D: Disk + Drop, H: NodeHash, G: Gate>(
    engine: &mut Engine<D, H>,
    gate: &mut G,
    members: &mut Vec<Member<G::R, G::W>>,
    until_complete: bool,
    pace: &mut Pace,
    buffers: &mut SwarmBuffers,
) -> Result<(), FlushError>
    requires unwaited { G.waits gate.old ≡ 0 }
    requires keyed { AreKeyed engine.old.state members.old.items }
    ensures keyed { AreKeyed engine.new.state members.new.items }
    ensures swarm { SwarmsOn D.conduct H.digest (ReadFailed G.R.has_failed G.is_troubled)
        (OneFailed G.W.has_failed) G.gives G.R.remaining G.W.contents G.leads
        engine.old members.old.items gate.old engine.new members.new.items gate.new }
    ensures over { OnOk result (IsAtEnd until_complete
        engine.new members.new.items (G.is_shut gate.new) (G.waits gate.new)) }
    ensures refused { IfErr result
        (λ error. IsRefused D.conduct H.digest engine.old error engine.new) }
{
    for waited in 0..u64::MAX {
        if is_over(engine, gate, members.as_slice(), until_complete) {
            return Ok(());
        }
        round(engine, gate, members, pace, buffers)?;
    }
    Ok(())
}

/// Whether a swarm is over.
fn is_over<D: Disk + Drop, H: NodeHash, G: Gate>(
    engine: &Engine<D, H>,
    gate: &G,
    members: &[Member<G::R, G::W>],
    until_complete: bool,
) -> bool
    ensures { result ≡ true
        → IsAtEnd until_complete engine.now members.now (G.is_shut gate.now) (G.waits gate.now) }
{
    if until_complete && engine.is_complete() {
        return true;
    }
    if !members.is_empty() {
        return false;
    }
    gate.is_over()
}

/// One round: those that wait join, each that is ready has a turn, the engine is flushed where that is due, and
/// those that have ended go. Errors: a flush was refused.
fn round<D: Disk + Drop, H: NodeHash, G: Gate>(
    engine: &mut Engine<D, H>,
    gate: &mut G,
    members: &mut Vec<Member<G::R, G::W>>,
    pace: &mut Pace,
    buffers: &mut SwarmBuffers,
) -> Result<(), FlushError>
    requires few { G.waits gate.old < 2 ^ 64 - 1 }
    requires keyed { AreKeyed engine.old.state members.old.items }
    ensures keyed { AreKeyed engine.new.state members.new.items }
    ensures swarm { SwarmsOn D.conduct H.digest (ReadFailed G.R.has_failed G.is_troubled)
        (OneFailed G.W.has_failed) G.gives G.R.remaining G.W.contents G.leads
        engine.old members.old.items gate.old engine.new members.new.items gate.new }
    ensures waits { G.waits gate.new ≡ G.waits gate.old + 1 }
    ensures refused { IfErr result
        (λ error. IsRefused D.conduct H.digest engine.old error engine.new) }
{
    let due = gate.wait(pace.one_went || has_work::<G>(members.as_slice()));
    admit(engine, gate, members, buffers);
    let choice = due.choice || pace.one_went;
    let turns = give_turns(engine, gate, members.as_mut_slice(), choice, buffers);
    // before those go who have ended: so what the last one gave is on the devices when the gate tells of it
    let nobody_stays = have_all_ended::<G>(members.as_slice());
    let flushed = flush_if_due(engine, pace, turns, nobody_stays);
    pace.one_went = let_go(engine, gate, members);
    flushed
}

/// Whether all that are there have ended, so that nobody stays.
fn have_all_ended<G: Gate>(members: &[Member<G::R, G::W>]) -> bool {
    for member in members {
        if member.end.is_none() {
            return false;
        }
    }
    true
}

/// Whether wire events of one may be taken before anything comes.
fn has_work<G: Gate>(members: &[Member<G::R, G::W>]) -> bool {
    for member in members {
        if member.may_have_events && takes_more::<G>(member) {
            return true;
        }
    }
    false
}

/// Counts turns, and flushes the engine where so many were taken that it is due, or where nobody stays and some
/// were taken since the last flush. Errors: the flush was refused.
fn flush_if_due<D: Disk + Drop, H: NodeHash>(
    engine: &mut Engine<D, H>,
    pace: &mut Pace,
    turns: u64,
    nobody_stays: bool,
) -> Result<(), FlushError>
    ensures step { MayBeFlushed D.conduct H.digest engine.old engine.new }
    ensures refused { IfErr result
        (λ error. IsRefused D.conduct H.digest engine.old error engine.new) }
{
    pace.turns = pace.turns.saturating_add(turns);
    let Flushing::Each(every) = pace.flushing else {
        return Ok(());
    };
    let is_due = nobody_stays || pace.turns >= u64::from(every);
    if pace.turns == 0 || !is_due {
        return Ok(());
    }
    pace.turns = 0;
    flush(engine)
}
