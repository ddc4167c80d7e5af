//! How an engine begins, with a log or without.
ghost use Rattle.std.specs.Prelude.{[], ◌≡◌, ◌↔◌, IfOk, IsTrue};
ghost use Rattle.sha2.specs.Sha256.{sha256};
ghost use Rattle.bt_meta.specs.Torrent.{IsLawful};
ghost use Rattle.bt_machine.specs.Frames.{AreSparseTrees};
ghost use Rattle.bt_machine.specs.Law.{AreRooted};
ghost use Rattle.bt_machine.specs.Orderly.{IsOrderly};
ghost use Rattle.bt_machine.specs.Shape.{IsShaped};
ghost use Rattle.bt_machine.specs.Sound.{IsSound};
ghost use Rattle.bt_machine.specs.Opening.{AnswersStart, BeginsOn};
ghost use Rattle.bt_engine_state.specs.Parts.{state_of, disks_of, hints_of, pending_of};
ghost use Rattle.bt_engine_state.specs.Ties.{IsTied};
ghost use Rattle.bt_engine_start.specs.Starting.{answer_of, engine_of};
ghost use Rattle.bt_engine_start.specs.StartingSteps.{log_in, IsLogOf};
ghost use Rattle.bt_engine_start.specs.BeginningSteps.{AreFirst};
ghost use Rattle.bt_engine_start.specs.RecoverySteps.{HaveBegun};
ghost use Rattle.bt_engine_start.specs.Runs.{AreRunsOf};

use crate::beginning::begun;
use crate::devices::device_count;
use crate::recovery::recover_files;
use crate::runs::MarkRun;
use bt_disk::Disk;
use bt_engine_state::{OpenLog, Parts, Pending};
use bt_machine::{StartError, StartRefused, starts_keep_laws};
use bt_meta::Torrent;
use bt_resume::ResumeLog;
use bt_tree::{Hash32, NodeHash};
use std::alloc::{AllocError, Global};

/// The parts with which an engine of a torrent begins. Each tree is what the torrent says of it, and takes
/// the proofs of a log whose hints were read before. Each file that has a byte takes one of the devices, in
/// the torrent's order. Each block that the log records and whose leaf is known is read, once, and is marked
/// where its bytes are right; all others are missing, and without a log all are. No peer is connected. No
/// call of the log is made.
///
/// Errors, in this order: there is not one device for each file that has a byte; the log is another
/// torrent's; out of memory. The devices and the log are given back, and no call of them was made.
pub fn start<D: Disk + Drop, H: NodeHash>(
    alloc: Global,
    torrent: Torrent,
    hash: H,
    disks: Vec<D>,
    log: Option<ResumeLog<D>>,
) -> Result<Parts<D, H>, StartRefused<D, ResumeLog<D>>>
    requires digest { H.digest ≡ sha256 }
    ensures answer { AnswersStart D.conduct H.digest torrent disks.items log
        (answer_of result) }
    ensures tied { IfOk result (λ parts. IsTied parts) }
    ensures lawful { IfOk result
        (λ parts. IsLawful parts.torrent.piece_length parts.torrent.files) }
    ensures shaped { IfOk result (λ parts. IsShaped parts.torrent (state_of parts)) }
    ensures orderly { IfOk result (λ parts. IsOrderly (state_of parts)) }
    ensures rooted { IfOk result (λ parts. AreRooted H.digest (state_of parts)) }
    ensures sparse { IfOk result (λ parts. AreSparseTrees H.digest (state_of parts)) }
    ensures sound { IfOk result (λ parts.
        IsSound D.conduct H.digest (state_of parts) (disks_of parts)) }
{
    starts_keep_laws::<D, H>(hash);
    if disks.len() != device_count(torrent.files()) {
        return Err(StartRefused {
            disks,
            log,
            cause: StartError::DiskCount,
        });
    }
    if !is_log_of(&log, &torrent) {
        return Err(StartRefused {
            disks,
            log,
            cause: StartError::OtherLog,
        });
    }
    let mut disks = disks;
    let held = open_log(alloc, log);
    match begun(alloc, torrent, hash, &mut disks, &held) {
        Ok((parts, runs)) => Ok(with_log(parts, held, &runs)),
        Err(AllocError) => Err(StartRefused {
            disks,
            log: given_back(held),
            cause: StartError::OutOfMemory,
        }),
    }
}

/// Whether a log, where there is one, is this torrent's.
fn is_log_of<D: Disk + Drop>(log: &Option<ResumeLog<D>>, torrent: &Torrent) -> bool
    ensures { IsTrue result ↔ IsLogOf torrent.now.infohash log.now }
{
    let Some(held) = log else {
        return true;
    };
    is_same(&held.infohash(), &torrent.infohash())
}

/// Whether two infohashes are one.
fn is_same(infohash: &Hash32, other: &Hash32) -> bool
    ensures { IsTrue result ↔ (infohash.now ≡ other.now) }
{
    infohash == other
}

/// The log, with nothing that waits to be written to it. Takes no memory.
fn open_log<D: Disk + Drop>(alloc: Global, log: Option<ResumeLog<D>>) -> Option<OpenLog<D>>
    ensures log { log_in result ≡ log }
    ensures pending { pending_of result ≡ [] }
{
    match log {
        Some(log) => {
            let pending = Pending::new(alloc);
            Some(OpenLog { log, pending })
        }
        None => None,
    }
}

/// The log as it was given.
fn given_back<D: Disk + Drop>(log: Option<OpenLog<D>>) -> Option<ResumeLog<D>>
    ensures { result ≡ log_in log }
{
    match log {
        Some(held) => Some(held.log),
        None => None,
    }
}

/// Parts that have begun, with their log, by whose runs their files are restored. Without a log they stay as
/// they are, and no file is looked at. Takes no memory.
fn with_log<D: Disk + Drop, H: NodeHash>(
    parts: Parts<D, H>,
    log: Option<OpenLog<D>>,
    runs: &[MarkRun],
) -> Parts<D, H>
    requires first { AreFirst parts }
    requires begun { HaveBegun H.digest (hints_of log) parts }
    requires pending { pending_of log ≡ [] }
    requires same { IsLogOf parts.torrent.infohash (log_in log) }
    requires runs { AreRunsOf (hints_of log) runs.now }
    ensures begins { BeginsOn D.conduct H.digest result.torrent (disks_of parts) (log_in log)
        (engine_of result) }
    ensures lawful { IsLawful result.torrent.piece_length result.torrent.files }
    ensures torrent { result.torrent ≡ parts.torrent }
    ensures tied { IsTied result }
{
    if log.is_none() {
        return parts;
    }
    let mut parts = parts;
    parts.log = log;
    recover_files(&mut parts, runs);
    parts
}
