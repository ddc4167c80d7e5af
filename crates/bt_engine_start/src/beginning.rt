//! The parts with which an engine begins, before its files are restored.
ghost use Rattle.std.specs.Prelude.{◌≡◌, length, IfOk, OnErr};
ghost use Rattle.sha2.specs.Sha256.{sha256};
ghost use Rattle.bt_machine.specs.Start.{AreDevicesOf, device_count as count_of_devices};
ghost use Rattle.bt_engine_state.specs.Parts.{disks_of, hints_of};
ghost use Rattle.bt_engine_start.specs.BeginningSteps.{AreFirst};
ghost use Rattle.bt_engine_start.specs.RecoverySteps.{HaveBegun};
ghost use Rattle.bt_engine_start.specs.Runs.{AreRunsOf};

use crate::devices::hand_out;
use crate::making::made_anew;
use crate::roots::bare_slots;
use crate::runs::MarkRun;
use bt_disk::Disk;
use bt_engine_state::{OpenLog, Parts};
use bt_meta::{Torrent, blocks_and_ranges_agree};
use bt_tree::NodeHash;
use std::alloc::{AllocError, Global};

/// The parts before the files are restored, without the log, the proofs of which the trees have taken; and the
/// runs of blocks that the log records. Each file that has a byte has one of the devices, in the torrent's
/// order. All else is made before a device is taken. Where memory is refused, all devices are back.
pub(crate) fn begun<D: Disk + Drop, H: NodeHash>(
    alloc: Global,
    torrent: Torrent,
    hash: H,
    disks: &mut Vec<D>,
    log: &Option<OpenLog<D>>,
) -> Result<(Parts<D, H>, Vec<MarkRun>), AllocError>
    requires digest { H.digest ≡ sha256 }
    requires enough { length disks.old.items ≡ count_of_devices torrent.files }
    ensures torrent { IfOk result (λ made. made.0.torrent ≡ torrent) }
    ensures first { IfOk result (λ made. AreFirst made.0) }
    ensures devices { IfOk result (λ made.
        AreDevicesOf torrent.files disks.old.items (disks_of made.0)) }
    ensures begun { IfOk result (λ made. HaveBegun H.digest (hints_of log.now) made.0) }
    ensures runs { IfOk result (λ made. AreRunsOf (hints_of log.now) made.1.items) }
    ensures refused { OnErr result (disks.new.items ≡ disks.old.items) }
{
    blocks_and_ranges_agree();
    torrent.keeps_laws();
    let (roots, slots) = bare_slots(alloc, torrent.files())?;
    let (trees, books, runs) = made_anew(alloc, hash, &torrent, &roots, log)?;
    let mut slots = slots;
    hand_out(alloc, hash, torrent.files(), &mut slots, disks)?;
    let parts = Parts {
        trees,
        roots,
        slots,
        counts: books.counts,
        known: books.known,
        peers: books.peers,
        book: books.book,
        last_key: 0,
        turn: 0,
        log: None,
        torrent,
    };
    Ok((parts, runs))
}
