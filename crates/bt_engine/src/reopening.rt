//! An engine begins where another one was stopped.
ghost use Rattle.std.specs.Prelude.{◌≡◌, Some, Ok, IfOk, IfErr};
ghost use Rattle.sha2.specs.Sha256.{sha256};
ghost use Rattle.bt_machine.specs.Opening.{AnswersStart};
ghost use Rattle.bt_engine.specs.Reopened.{IsReopened, IsBackedByLog};
ghost use Rattle.bt_engine.specs.Reopening.{HasReopened, IsNotReopened, IsNotStarted};

use crate::engine::Engine;
use bt_disk::Disk;
use bt_machine::{StartError, StartRefused, flushed_blocks_are_marked_again};
use bt_meta::Torrent;
use bt_resume::{LogError, ResumeLog};
use bt_tree::NodeHash;
use std::alloc::Global;
use thiserror::Error;

/// Why no engine begins.
#[derive(Clone, Copy, Debug, PartialEq, Eq, Error)]
pub enum ReopenError {
    /// The log could not be opened.
    #[error("{0}")]
    Log(LogError),
    /// There is not one device for each file that has a byte, or memory was refused.
    #[error("{0}")]
    Start(StartError),
}

/// No engine begins. It gives the devices and that of the log back.
#[derive(Debug, Drop)]
pub struct ReopenRefused<D> {
    pub disks: Vec<D>,
    pub log: D,
    pub cause: ReopenError,
}

/// Opens the log of a torrent on a device, and starts an engine with it over the devices of the torrent's files.
///
/// Once a flush answered Ok on an engine with a log, a stop at any later moment, also within an event, leaves devices
/// over which this marks each block that was marked at the flush, where it answers Ok and no read of them fails; and
/// it refuses the log then only for a device fault or for want of memory. So it is too where the stopped engine was
/// itself started over what such a stop had left, however often. All this is of honest devices, where no read failed
/// in a start or a restart since the flush. Before the flush the engine was started with the log as it was opened, or
/// a restart was accepted; and after the last restart that ran out of memory another one was.
///
/// Errors: `Log` as `ResumeLog::attach` has it, and `Start` as `Engine::start`.
pub fn reopen<D: Disk + Drop, H: NodeHash>(
    alloc: Global,
    torrent: Torrent,
    hash: H,
    disks: Vec<D>,
    log: D,
) -> Result<Engine<D, H>, ReopenRefused<D>>
    requires { H.digest ≡ sha256 }
    ensures reopened { IfOk result
        (HasReopened D.conduct H.digest torrent disks.items log) }
    ensures refused { IfErr result
        (IsNotReopened D.conduct H.digest torrent disks.items log) }
{
    flushed_blocks_are_marked_again::<D, H>(hash);
    match ResumeLog::attach(alloc, log, torrent.infohash()) {
        Ok(opened) => start_with(alloc, torrent, hash, disks, opened),
        Err(refused) => Err(ReopenRefused {
            disks,
            log: refused.disk,
            cause: ReopenError::Log(refused.cause),
        }),
    }
}

/// Starts an engine with a log that was opened.
fn start_with<D: Disk + Drop, H: NodeHash>(
    alloc: Global,
    torrent: Torrent,
    hash: H,
    disks: Vec<D>,
    opened: ResumeLog<D>,
) -> Result<Engine<D, H>, ReopenRefused<D>>
    requires digest { H.digest ≡ sha256 }
    requires same_torrent { opened.infohash ≡ torrent.infohash }
    ensures begun { IfOk result (λ engine. AnswersStart D.conduct H.digest torrent
        disks.items (Some opened) (Ok engine)) }
    ensures again { IfOk result (IsReopened D.conduct H.digest torrent disks.items
        (Some opened)) }
    ensures backed { IfOk result (IsBackedByLog D.conduct H.digest torrent (Some opened)) }
    ensures refused { IfErr result (IsNotStarted torrent disks.items opened) }
{
    match Engine::start(alloc, torrent, hash, disks, Some(opened)) {
        Ok(engine) => Ok(engine),
        Err(refused) => {
            let StartRefused { disks, log, cause } = refused;
            match log {
                Some(log) => Err(ReopenRefused {
                    disks,
                    log: log.into_disk(),
                    cause: ReopenError::Start(cause),
                }),
                None => unreachable!(),
            }
        }
    }
}
