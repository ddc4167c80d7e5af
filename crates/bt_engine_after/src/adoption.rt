//! The adoption of one file: whether it may be taken in now, its groups of blocks, and then the blocks that
//! wait in the other files of its root.
ghost use Rattle.std.specs.Prelude.{[], ◌≡◌, ◌≢◌, ◌<◌, ◌↔◌, is_some, false, IsTrue, IfOk, IfErr, length, vec_len};
ghost use Rattle.bt_machine.specs.Devices.{DeviceCalls, HaveCalls};
ghost use Rattle.bt_machine.specs.Blocks.{states_of};
ghost use Rattle.bt_machine.specs.Adopting.{StepAdopt};
ghost use Rattle.bt_engine_state.specs.Parts.{state_of, disks_of};
ghost use Rattle.bt_engine_state.specs.Handling.{AreInShape, KeepsWritten};
ghost use Rattle.bt_engine_after.specs.PartsSteps.{AreInLine, KeepsRest};
ghost use Rattle.bt_engine_after.specs.AdoptionSteps.{AdoptsIn, StopsIn};
ghost use Rattle.bt_engine_after.specs.Unknown.{HasUnknownLeaf};

use crate::groups::adopt_groups;
use crate::settling::settle_recorded;
use bt_disk::{Disk, calls_compose};
use bt_engine_state::{Parts, count_in, leave_out};
use bt_machine::AdoptError;
use bt_store::{Adopted, BlockState};
use bt_tree::NodeHash;
use std::alloc::{AllocError, Global};

/// Takes in what the device of a file has already: every group of its blocks, and then the blocks that wait
/// in the other files of its root, which are not counted in the answer. `next` is the file's count of
/// blocks, `anchor` is 0, and `marked` and `faults` are the sums over the groups, in blocks.
///
/// With a log each group leaves its proofs pending, and then the marks of its newly marked blocks; after all
/// groups come the marks of the blocks that have become marked in the other files.
///
/// Errors, the first that is met: `NoFile`; `Busy` where a peer is connected; `OutOfMemory`, after which the
/// groups that were taken in stay so, with what they left for the log, and no other file has changed.
pub fn adopt<D: Disk + Drop, H: NodeHash>(
    alloc: Global,
    parts: &mut Parts<D, H>,
    file: u32,
) -> Result<Adopted, AdoptError>
    requires { AreInShape parts.old }
    ensures step { (calls : DeviceCalls)
        × HaveCalls D.conduct (disks_of parts.old) calls (disks_of parts.new)
        × StepAdopt H.digest (state_of parts.old) file calls result (state_of parts.new) }
    ensures rest { KeepsWritten parts.old parts.new }
    ensures peers { parts.new.peers ≡ parts.old.peers }
    ensures refused { IfErr result (λ error. error ≢ AdoptError.OutOfMemory → parts.new
        ≡ parts.old) }
    ensures unknown { IfErr result (λ error. error ≡ AdoptError.OutOfMemory
        → is_some parts.old.log ≡ false → HasUnknownLeaf H.digest (state_of parts.new) file) }
{
    if file as usize >= parts.slots.len() {
        return Err(AdoptError::NoFile);
    }
    if has_peer(parts) {
        return Err(AdoptError::Busy);
    }
    if block_count(parts, file) == 0 {
        return Ok(Adopted {
            next: 0,
            anchor: 0,
            marked: 0,
            faults: 0,
        });
    }
    let tree = parts.slots[file as usize].tree as usize;
    let Ok(total) = adopt_file(alloc, parts, file) else {
        return Err(AdoptError::OutOfMemory);
    };
    let Ok(()) = settle_recorded(alloc, parts, tree, file) else {
        return Err(AdoptError::OutOfMemory);
    };
    Ok(total)
}

/// How many blocks a file has; none where there is no such file.
fn block_count<D: Disk + Drop, H: NodeHash>(parts: &Parts<D, H>, file: u32) -> u32
    ensures { result ≡ length (states_of (state_of parts.now) file) }
{
    let slots = parts.slots.as_slice();
    match slots.get(file as usize) {
        Some(slot) => slot.blocks(),
        None => 0,
    }
}

/// Whether a peer is connected.
fn has_peer<D: Disk + Drop, H: NodeHash>(parts: &Parts<D, H>) -> bool
    ensures { IsTrue result ↔ (0 < length parts.now.peers.items) }
{
    parts.peers.len() > 0
}

/// Takes in all groups of a file that has a block. No peer is connected. Errors: out of memory.
fn adopt_file<D: Disk + Drop, H: NodeHash>(
    alloc: Global,
    parts: &mut Parts<D, H>,
    file: u32,
) -> Result<Adopted, AllocError>
    requires alone { parts.old.peers.items ≡ [] }
    requires in_line { AreInLine parts.old }
    requires inside { file < vec_len parts.old.slots }
    requires some { 0 < length (states_of (state_of parts.old) file) }
    ensures ok { IfOk result (λ total. AdoptsIn D.conduct H.digest file
        parts.old total parts.new) }
    ensures stop { IfErr result (λ _. StopsIn D.conduct H.digest file
        parts.old parts.new) }
    ensures unknown { IfErr result (λ _. is_some parts.old.log ≡ false
        → HasUnknownLeaf H.digest (state_of parts.new) file) }
    ensures rest { KeepsRest parts.old parts.new }
    ensures in_line { AreInLine parts.new }
{
    calls_compose::<D>();
    let slot = &mut parts.slots[file as usize];
    leave_out(
        &parts.torrent,
        slot,
        file,
        &mut parts.book,
        &mut parts.counts,
    );
    let Some(store) = &mut slot.store else {
        unreachable!();
    };
    let tree = &mut parts.trees[slot.tree as usize];
    let adopted = adopt_groups(alloc, store, tree, file, &mut parts.log);
    count_in(
        &parts.torrent,
        slot,
        file,
        BlockState::Marked,
        &mut parts.book,
        &mut parts.counts,
    );
    adopted
}
