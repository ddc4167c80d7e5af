//! All is begun anew, with a log or without. All that takes memory is made first, so that nothing but the log
//! has changed where it is refused.
ghost use Rattle.std.specs.Prelude.{◌≡◌, IfErr};
ghost use Rattle.sha2.specs.Sha256.{sha256};
ghost use Rattle.bt_engine_state.specs.Ties.{IsTied};
ghost use Rattle.bt_engine_state.specs.Handling.{AreInShape};
ghost use Rattle.bt_engine_start.specs.Restarting.{RestartsWith};
ghost use Rattle.bt_engine_start.specs.RestartingSteps.{IsReadAgain};

use crate::anew::begin_again;
use crate::making::made_anew;
use crate::recovery::recover_files;
use bt_disk::Disk;
use bt_engine_state::{OpenLog, Parts};
use bt_machine::RestartError;
use bt_resume::LogError;
use bt_tree::NodeHash;
use std::alloc::{AllocError, Global};

/// Begins all anew. A log that the engine has is read again first. Each tree is what the torrent says of it,
/// and takes the log's proofs. Each block that the log records and whose leaf is known then is read, once,
/// and is marked where its bytes are right; all others are missing. No peer is connected, and nothing waits
/// to be written to the log. Keys and turns go on.
///
/// Errors: `Log` where the log could not be read, and then nothing has changed; out of memory, and then a log
/// was read again, and nothing else has changed. No device of a file is called then.
pub fn restart<D: Disk + Drop, H: NodeHash>(
    alloc: Global,
    hash: H,
    parts: &mut Parts<D, H>,
) -> Result<(), RestartError>
    requires digest { H.digest ≡ sha256 }
    requires sound { AreInShape parts.old }
    ensures step { RestartsWith D.conduct H.digest parts.old result parts.new }
    ensures refused { IfErr result (λ _. parts.new ≡ record parts.old { log = parts.new.log }) }
    ensures torrent { parts.new.torrent ≡ parts.old.torrent }
    ensures tied { IsTied parts.new }
{
    if let Err(cause) = read_again(&mut parts.log) {
        return Err(RestartError::Log(cause));
    }
    match made_anew(alloc, hash, &parts.torrent, &parts.roots, &parts.log) {
        Ok((trees, books, runs)) => {
            begin_again(parts, trees, books);
            recover_files(parts, &runs);
            Ok(())
        }
        Err(AllocError) => Err(RestartError::OutOfMemory),
    }
}

/// Reads a log again, where there is one. A refusal leaves all but its device as it was.
fn read_again<D: Disk + Drop>(log: &mut Option<OpenLog<D>>) -> Result<(), LogError>
    ensures { IsReadAgain D.conduct log.old result log.new }
{
    match log {
        Some(held) => held.log.reload(),
        None => Ok(()),
    }
}
