//! The next wire event of a peer.
ghost use Rattle.std.specs.Prelude.{◌≡◌, IfOk, IfErr};
ghost use Rattle.bt_wire.specs.Cutter.{IsAnswer, IsRefusal};
ghost use Rattle.bt_machine.specs.Devices.{DeviceCalls, HaveCalls};
ghost use Rattle.bt_machine.specs.Next.{StepNext};
ghost use Rattle.bt_machine.specs.Orderly.{IsOrderly};
ghost use Rattle.bt_engine_state.specs.Parts.{state_of, disks_of};
ghost use Rattle.bt_engine_state.specs.Handling.{AreInShape, IsTiedAt, KeepsDevices, KeepsWritten};
ghost use Rattle.bt_engine.specs.NextSteps.{IsCut};

use crate::event::{close, drop_peer, take_event};
use bt_book::PeerKey;
use bt_disk::Disk;
use bt_engine_state::{Parts, index_of};
use bt_machine::{EngineError, Output, Why};
use bt_tree::NodeHash;
use bt_wire::{WireError, WireEvent};
use std::alloc::Global;

/// Takes the next wire event of a peer, and does what follows from it. None where no event has come whole.
/// Errors: no peer has the key; out of memory, by which the event is lost, and the peer with it. No device is
/// called then.
pub(crate) fn next<D: Disk + Drop, H: NodeHash>(
    alloc: Global,
    parts: &mut Parts<D, H>,
    key: PeerKey,
) -> Result<Option<Output>, EngineError>
    requires sound { AreInShape parts.old }
    requires orderly { IsOrderly (state_of parts.old) }
    ensures step { (calls : DeviceCalls)
        × HaveCalls D.conduct (disks_of parts.old) calls (disks_of parts.new)
        × StepNext H.digest (state_of parts.old) key calls result (state_of parts.new) }
    ensures devices { IfErr result (λ _. disks_of parts.new ≡ disks_of parts.old) }
    ensures rest { KeepsWritten parts.old parts.new }
{
    let Some(index) = index_of(parts, key) else {
        return Err(EngineError::NoPeer);
    };
    match next_event(parts, index) {
        Ok(None) => Ok(None),
        Ok(Some(event)) => match take_event(alloc, parts, index, &event) {
            Ok(output) => Ok(Some(output)),
            Err(_) => {
                drop_peer(parts, index);
                Err(EngineError::OutOfMemory)
            }
        },
        Err(fault) => match fault {
            WireError::OutOfMemory => {
                drop_peer(parts, index);
                Err(EngineError::OutOfMemory)
            }
            // The bytes of an orderly peer have shown no fault yet.
            WireError::Failed => unreachable!(),
            _ => Ok(Some(close(alloc, parts, index, Why::Wire(fault)))),
        },
    }
}

/// Takes the first event from the bytes of the peer at an index.
fn next_event<D: Disk + Drop, H: NodeHash>(
    parts: &mut Parts<D, H>,
    index: usize,
) -> Result<Option<WireEvent>, WireError>
    requires { IsTiedAt parts.old index }
    ensures found { IfOk result (λ found. IsCut (state_of parts.old) index
        (λ was now. IsAnswer was found now) (state_of parts.new)) }
    ensures refused { IfErr result (λ error. IsCut (state_of parts.old) index
        (λ was now. IsRefusal was error now) (state_of parts.new)) }
    ensures rest { KeepsDevices parts.old parts.new }
    ensures peer { IsTiedAt parts.new index }
{
    let peer = &mut parts.peers[index];
    peer.cutter.next()
}
