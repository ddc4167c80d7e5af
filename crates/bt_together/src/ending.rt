//! What comes behind a swarm: a flush.
ghost use Rattle.std.specs.Prelude.{◌≡◌, Ok, Err, IfErr, OnOk};
ghost use Rattle.bt_files.specs.Ending.{IsEndFault};
ghost use Rattle.bt_files.specs.OpenFolder.{IsCallFault};
ghost use Rattle.bt_files.specs.Store.{flush_fault};
ghost use Rattle.bt_machine.specs.declared.event.Event.TheVariants.{Flush};
ghost use Rattle.bt_machine.specs.declared.event.Answer.TheVariants.{Flushed};
ghost use Rattle.bt_machine.specs.View.{StepsTo};
ghost use Rattle.bt_engine.specs.Leads.{LeadsTo};
ghost use Rattle.bt_together.specs.Together.{FailsAtOnce};

use bt_check::Fault;
use bt_disk::Disk;
use bt_engine::Engine;
use bt_files::finish;
use bt_tree::NodeHash;

/// Flushes an engine, and then gives `before`, which tells how the swarm went. Errors: the flush is refused; the
/// swarm ended with a fault.
pub(crate) fn sync_behind<D: Disk + Drop, H: NodeHash>(
    engine: &mut Engine<D, H>,
    before: Result<(), Fault>,
) -> Result<(), Fault>
    requires call { IfErr before IsCallFault }
    ensures synced { OnOk result
        (StepsTo D.conduct H.digest engine.old Flush (Flushed (Ok tt)) engine.new) }
    ensures before { OnOk result (before ≡ Ok tt) }
    ensures cause { IfErr result (FailsAtOnce D.conduct H.digest engine.old) }
    ensures run { LeadsTo D.conduct H.digest engine.old engine.new }
    ensures fault { IfErr result (IsEndFault engine.old.log) }
{
    finish(engine)?;
    before
}
