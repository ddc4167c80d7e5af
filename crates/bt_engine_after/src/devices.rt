//! The devices of all files, and the log.
ghost use Rattle.std.specs.Prelude.{◌≡◌, ◌<◌, length};
ghost use Rattle.bt_machine.specs.Devices.{HaveCalls};
ghost use Rattle.bt_machine.specs.Flush.{StepFlush};
ghost use Rattle.bt_machine.specs.LogCalls.{EventCalls, HaveLogCalls};
ghost use Rattle.bt_engine_state.specs.Parts.{state_of, disks_of, log_of};
ghost use Rattle.bt_engine_state.specs.Ties.{IsTied};
ghost use Rattle.bt_engine_after.specs.DevicesSteps.{SyncsSlot, SyncsSlots, WritesLog};

use bt_disk::{DeviceFault, Disk};
use bt_engine_state::{OpenLog, Parts, Slot, writing_flushes};
use bt_machine::FlushError;
use bt_store::FileStore;
use bt_tree::NodeHash;

/// Syncs the device of each file that has a byte, in the order of files. Where there is a log, it then
/// appends to it all hints that wait, in their order, and has it flushed: none waits any more. It ends at the
/// first fault. Takes no memory.
///
/// Errors: `LogFull` where the log would get longer than 2^40 bytes; `Device`. Then all of them wait as
/// before, also those that were appended: the log has forgotten these.
pub fn flush<D: Disk + Drop, H: NodeHash>(parts: &mut Parts<D, H>) -> Result<(), FlushError>
    requires { IsTied parts.old }
    ensures step { (calls : EventCalls)
        × HaveCalls D.conduct (disks_of parts.old) calls.devices (disks_of parts.new)
        × HaveLogCalls D.conduct (log_of parts.old) calls.log (log_of parts.new)
        × StepFlush (state_of parts.old) calls result (state_of parts.new) }
    ensures torrent { parts.new.torrent ≡ parts.old.torrent }
    ensures tied { IsTied parts.new }
{
    writing_flushes();
    sync_slots(&mut parts.slots)?;
    write_log(&mut parts.log)
}

/// Syncs the device of each slot that has one, up to the first that fails.
fn sync_slots<D: Disk + Drop, H: NodeHash>(slots: &mut [Slot<D, H>]) -> Result<(), FlushError>
    ensures { SyncsSlots D.conduct slots.old result slots.new }
{
    for slot in slots.iter_mut() {
        if let Err(DeviceFault) = sync_slot(slot) {
            return Err(FlushError::Device);
        }
    }
    Ok(())
}

/// Syncs the slot's device, where it has one.
fn sync_slot<D: Disk + Drop, H: NodeHash>(slot: &mut Slot<D, H>) -> Result<(), DeviceFault>
    ensures { SyncsSlot D.conduct slot.old result slot.new }
{
    let Some(store) = &mut slot.store else {
        return Ok(());
    };
    has_block(store);
    store.sync()
}

/// A store has a block. It does nothing when it runs.
fn has_block<D: Disk + Drop, H: NodeHash>(store: &FileStore<D, H>)
    ensures { 0 < length store.now.states }
{
    let _ = store.geometry().blocks();
}

/// Writes what waits to the log, where there is one.
fn write_log<D: Disk + Drop>(log: &mut Option<OpenLog<D>>) -> Result<(), FlushError>
    ensures { WritesLog D.conduct log.old result log.new }
{
    let Some(open_log) = log else {
        return Ok(());
    };
    open_log.pending.write_to(&mut open_log.log)
}
