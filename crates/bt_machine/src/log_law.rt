//! What follows for logs: what hints say of trees and marks, and that what a flush has written is enough to
//! begin anew with. The functions do nothing when they run.
ghost use Rattle.bt_machine.specs.Hints.{HintsStayRecorded, JoinedRunsAreLongest};
ghost use Rattle.bt_machine.specs.View.{StartsOfLog, StepKeepsOfLog, RunKeepsOfLog};
ghost use Rattle.bt_machine.specs.Backing.{SameTreesTakeSame, HintsAreSplit, JoiningKeepsTrees, HintsForgetNothing, AcceptedProofsFollow, ClaimsThatAddNothing, PendingKeepsBacking, TorrentTreesAreOne, RecoveredIsBacked, GroupProofsFollow, OtherRootsStay, StartIsBacked, RestartIsBacked, StepKeepsBacking, BackingGoesOn, RunsAreBacked};
ghost use Rattle.bt_machine.specs.Reopening.{BackedBlocksAreMarkedAgain, StepKeepsLog, FlushKeepsHints, FlushedLogsAreKept, NoRestartsReadAll, CountsTellReads};
ghost use Rattle.bt_machine.specs.Lives.{SyncedIsSettled, FlushedBlocksAreKept, FlushedBlocksAreMarkedAgain, FlushedLogsOpen};

use crate::law::{starts_keep_laws, steps_keep_laws};
use bt_disk::{Disk, calls_keep_bytes};
use bt_resume::{
    hints_are_read_back, kept_devices_open, kept_hints_stand, logs_hold_hints, logs_keep_hints,
};
use bt_sparse::{answers_agree, answers_are_taken, keeps_rooted};
use bt_store::adopt_marks_by_bytes;
use bt_tree::{NodeHash, heights_are_least};

/// What hints record they go on to record when others are added, and their marks are in runs as long as may be.
pub fn hints_record_marks()
    ensures stay { HintsStayRecorded }
    ensures longest { JoinedRunsAreLongest }
{}

/// The same hints lead from trees that hold the same to trees that hold the same, whatever becomes of marks.
pub fn hints_lead_trees<H: NodeHash>()
    ensures same { SameTreesTakeSame H.digest }
    ensures split { HintsAreSplit H.digest }
    ensures joining { JoiningKeepsTrees H.digest }
    ensures kept { HintsForgetNothing H.digest }
    ensures follow { AcceptedProofsFollow H.digest }
    ensures nothing { ClaimsThatAddNothing H.digest }
    ensures pending { PendingKeepsBacking H.digest }
    ensures one { TorrentTreesAreOne H.digest }
    ensures recovered { RecoveredIsBacked H.digest }
{}

/// An engine and its log go together, from a start on, over each event and over any list of them, whatever
/// they answer: there is a log exactly where the engine says so, it is the torrent's, and the engine's hints
/// are those that were last read from it.
pub fn engines_are_of_logs<D: Disk, H: NodeHash>()
    ensures starts { StartsOfLog D.conduct H.digest }
    ensures steps { StepKeepsOfLog D.conduct H.digest }
    ensures runs { RunKeepsOfLog D.conduct H.digest }
{}

/// What a log backs is marked again, when all is begun anew with its hints and the reads are right.
pub fn backed_blocks_are_marked_again<H: NodeHash>()
    ensures { BackedBlocksAreMarkedAgain H.digest }
{}

/// What a log keeps stands through every event, and after a flush it keeps enough of every marked block.
pub fn logs_stand<D: Disk, H: NodeHash>()
    ensures stand { StepKeepsLog D.conduct H.digest }
    ensures kept { FlushKeepsHints D.conduct H.digest }
{
    kept_hints_stand::<D>();
    logs_hold_hints::<D>();
}

/// The proofs that a group leaves for a log lead where its digests led.
pub fn group_proofs_follow<H: NodeHash>(hash: H)
    ensures lead { GroupProofsFollow H.digest }
    ensures others { OtherRootsStay H.digest }
{
    heights_are_least();
    keeps_rooted(hash);
    answers_agree(hash);
    answers_are_taken(hash);
}

/// A log that was opened for an engine backs it from its start on: with what is pending, it has each mark, and
/// leads a torrent's trees to what the engine's know. Every event keeps it so, but for a restart that ran out
/// of memory, until one is accepted. An accepted restart makes it so whatever the log held, and the engine knew,
/// before it. From a flush that answered Ok on, what the log held then is in whatever a stop leaves of it.
pub fn logs_back_engines<D: Disk, H: NodeHash>(hash: H)
    ensures starts { StartIsBacked D.conduct H.digest }
    ensures restarts { RestartIsBacked D.conduct H.digest }
    ensures steps { StepKeepsBacking D.conduct H.digest }
    ensures goes_on { BackingGoesOn D.conduct H.digest }
    ensures runs { RunsAreBacked D.conduct H.digest }
    ensures flushed { FlushedLogsAreKept D.conduct H.digest }
{
    logs_hold_hints::<D>();
    kept_hints_stand::<D>();
    kept_devices_open::<D>();
    group_proofs_follow(hash);
    keeps_rooted(hash);
    starts_keep_laws::<D, H>(hash);
    steps_keep_laws::<D, H>(hash);
}

/// No read of a restart failed where there was no restart, and where the count of failed calls of each device
/// stayed what it was.
pub fn restarts_read_all<D: Disk, H: NodeHash>()
    ensures none { NoRestartsReadAll }
    ensures counted { CountsTellReads D.conduct H.digest }
{}

/// Once a flush answered Ok on an engine with a log, a stop at any later moment, in its life or in a later one that
/// began with what such a stop had left, also within an event, leaves enough: each block that was marked at the flush
/// is right in what it leaves of an honest device, and all are marked where the devices and the log are opened again
/// and no read fails. A restart since the flush counts as a reopening: no read of it failed either. What it leaves of
/// the log is not refused for what its bytes are.
pub fn flushed_blocks_are_marked_again<D: Disk, H: NodeHash>(hash: H)
    ensures kept { FlushedBlocksAreKept D.conduct H.digest }
    ensures marked { FlushedBlocksAreMarkedAgain D.conduct H.digest }
    ensures opens { FlushedLogsOpen D.conduct H.digest }
    ensures settled { SyncedIsSettled D.conduct }
{
    logs_back_engines::<D, H>(hash);
    kept_devices_open::<D>();
    kept_hints_stand::<D>();
    logs_keep_hints::<D>();
    logs_hold_hints::<D>();
    hints_are_read_back();
    adopt_marks_by_bytes(hash);
    calls_keep_bytes();
}
