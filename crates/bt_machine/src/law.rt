//! Laws of the machine: what holds of its starts, of each event and of lists of events, of marked blocks,
//! trees, devices and what is sent. The functions do nothing when they run.
ghost use Rattle.bt_machine.specs.Law.{StartsRooted, StepKeepsRooted, RunsAreChecked, RightIsChecked, RunMarksByBytes, StepMarksByBytes, StartMarksByBytes, RestartMarksByBytes, RunSendsReadBytes};
ghost use Rattle.bt_machine.specs.Sound.{StartsSound, StepKeepsSound, HonestDevicesWereSo, CompleteFilesStand};
ghost use Rattle.bt_machine.specs.Writes.{StepWritesMissing};
ghost use Rattle.bt_machine.specs.Unmarks.{StepUnmarksByBytes, RunKeepsMarks};
ghost use Rattle.bt_machine.specs.Headline.{CompleteFilesArePublished};
ghost use Rattle.bt_machine.specs.Crash.{StepKeepsImages};
ghost use Rattle.bt_machine.specs.Survival.{FlushKeepsBlocks, RunsKeepFlushedBlocks, RunKeepsImages};
ghost use Rattle.bt_machine.specs.Orderly.{StartsInOrder, StepKeepsOrder, RunsAreOrderly};
ghost use Rattle.bt_machine.specs.Shape.{StartsInShape, StepKeepsShape, StepKeepsFiles, RunsKeepShape};
ghost use Rattle.bt_machine.specs.ProofKeys.{ProofKeysAreAnswered};
ghost use Rattle.bt_machine.specs.Frames.{StartsSparse, StepKeepsSparse, StepSendsWhatFits, RunsSendWhatFits};
ghost use Rattle.bt_machine.specs.Changes.{NewMarkedBlocksAreOfChanges, NewWholePiecesAreOfChanges, HavesAreOfChanges, NewCompleteFilesAreOfChanges, PieceIsWhole, RunIsWhole};
ghost use Rattle.bt_machine.specs.DeviceLaw.{NoCallsLead, CallsOfOneLead, CallsCompose};
ghost use Rattle.bt_machine.specs.View.{NoEventsRun, OneMoreEventRuns, RunsCompose, RunsAreRuns};

use bt_disk::{Disk, calls_keep_bytes};
use bt_meta::blocks_and_ranges_agree;
use bt_sparse::{held_is_checked, keeps_rooted, layers_are_sound, roots_are_sound};
use bt_store::adopt_marks_by_bytes;
use bt_tree::{NodeHash, heights_are_least, roots_tell_files};

/// What holds of every engine holds of one that begins with a lawful torrent, with a log or without: it has
/// the torrent's shape, its peers are in order, its trees are rooted and have digests of 32 bytes, and the
/// marked blocks of honest devices are right, since each was read, and without a log there are none.
pub fn starts_keep_laws<D: Disk, H: NodeHash>(hash: H)
    ensures shaped { StartsInShape H.digest }
    ensures orderly { StartsInOrder H.digest }
    ensures rooted { StartsRooted H.digest }
    ensures sparse { StartsSparse H.digest }
    ensures sound { StartsSound D.conduct H.digest }
{
    layers_are_sound(hash);
    roots_are_sound(hash);
    keeps_rooted(hash);
}

/// What holds of every engine goes on to hold over each event, a restart among them, whatever peers send, devices
/// answer and the log says. A file keeps its tree, and a tree the length of its file.
pub fn steps_keep_laws<D: Disk, H: NodeHash>(hash: H)
    ensures shaped { StepKeepsShape H.digest }
    ensures files { StepKeepsFiles H.digest }
    ensures orderly { StepKeepsOrder H.digest }
    ensures rooted { StepKeepsRooted H.digest }
    ensures sparse { StepKeepsSparse H.digest }
    ensures sound { StepKeepsSound D.conduct H.digest }
{
    layers_are_sound(hash);
    roots_are_sound(hash);
    keeps_rooted(hash);
    adopt_marks_by_bytes(hash);
}

/// After any list of events from the start of a lawful torrent every tree is rooted, and every digest that
/// one holds lies on a checked path to its root.
pub fn runs_are_checked<H: NodeHash>(hash: H)
    ensures { RunsAreChecked H.digest }
{
    layers_are_sound(hash);
    roots_are_sound(hash);
    keeps_rooted(hash);
    held_is_checked(hash);
}

/// Where a tree is rooted, the digest of bytes that are right for a block lies on a checked path to the root.
pub fn right_is_checked<H: NodeHash>(hash: H)
    ensures { RightIsChecked H.digest }
{
    held_is_checked(hash);
}

/// Each block that a list of events has marked became so at one of them, in one of four ways: it came from a
/// peer that was asked for it and was written; it waited, and was read back as its leaf was told or another
/// file of its tree was taken in; its file was taken in and it was read; or the log records it, and it was
/// read as all was begun anew. In each its digest is its leaf, and its bytes are of that event.
pub fn run_marks_by_bytes<H: NodeHash>(hash: H)
    ensures { RunMarksByBytes H.digest }
{
    adopt_marks_by_bytes(hash);
}

/// A block that one event has marked became so in one of the ways that `run_marks_by_bytes` tells.
pub fn step_marks_by_bytes<H: NodeHash>(hash: H)
    ensures { StepMarksByBytes H.digest }
{
    adopt_marks_by_bytes(hash);
}

/// A block that is marked when an engine is started with a log is recorded in it, and was read then.
pub fn start_marks_by_bytes<H: NodeHash>()
    ensures { StartMarksByBytes H.digest }
{}

/// A block that is marked after a restart that answered Ok is recorded in the log, and was read in this
/// restart, whatever it was before.
pub fn restart_marks_by_bytes<H: NodeHash>()
    ensures { RestartMarksByBytes H.digest }
{}

/// What an answer of a list of events sends of data was asked for in that answer's own event, and is cut from
/// blocks that were read in it with the digests of their leaves.
pub fn run_sends_read_bytes<H: NodeHash>()
    ensures { RunSendsReadBytes H.digest }
{}

/// After any list of events from the start of a torrent, whatever peers send and devices answer: where all
/// blocks of a file are marked and its device is honest, the file that stands there has the torrent's length
/// and root. So it equals every file of that length and root, or at one place of their trees two different
/// inputs have one digest.
pub fn complete_files_are_published<D: Disk, H: NodeHash>(hash: H)
    ensures { CompleteFilesArePublished D.conduct H.digest }
{
    layers_are_sound(hash);
    roots_are_sound(hash);
    keeps_rooted(hash);
    adopt_marks_by_bytes(hash);
    roots_tell_files(hash);
}

/// Where an engine's trees are rooted and the marked blocks of honest devices are right, a file of which all
/// blocks are marked stands whole on an honest device, with its tree's root.
pub fn complete_files_stand<D: Disk, H: NodeHash>()
    ensures { CompleteFilesStand D.conduct H.digest }
{}

/// A device that is honest after a list of events was there before it, and honest.
pub fn honest_devices_were_so<D: Disk, H: NodeHash>()
    ensures { HonestDevicesWereSo D.conduct H.digest }
{}

/// When a flush answers Ok, every marked block of an honest device is kept as it stands, by every image from
/// that moment on.
pub fn flush_keeps_blocks<D: Disk, H: NodeHash>()
    ensures { FlushKeepsBlocks D.conduct H.digest }
{
    calls_keep_bytes();
}

/// After any list of events from the start of a torrent, whatever peers send and devices answer: a crash at
/// any moment after a flush that answered Ok and before a restart, also within an event, leaves each block
/// right on an honest device that was marked at the flush.
pub fn runs_keep_flushed_blocks<D: Disk, H: NodeHash>(hash: H)
    ensures { RunsKeepFlushedBlocks D.conduct H.digest }
{
    calls_keep_bytes();
    adopt_marks_by_bytes(hash);
}

/// What every image since a moment has of a block that waits or is marked on an honest device, every image goes on to
/// have over an event, a restart among them, also those of a crash within it.
pub fn step_keeps_images<D: Disk, H: NodeHash>()
    ensures { StepKeepsImages D.conduct H.digest }
{
    calls_keep_bytes();
}

/// Where marked blocks are right on honest devices: what every image since a moment has of a marked block,
/// every image goes on to have over a list of events without a restart, also those of a crash within one.
pub fn run_keeps_images<D: Disk, H: NodeHash>(hash: H)
    ensures { RunKeepsImages D.conduct H.digest }
{
    calls_keep_bytes();
    adopt_marks_by_bytes(hash);
}

/// Where marked blocks are right on honest devices, a marked block on one stays marked over a list of events
/// without a restart.
pub fn run_keeps_marks<D: Disk, H: NodeHash>(hash: H)
    ensures { RunKeepsMarks D.conduct H.digest }
{
    adopt_marks_by_bytes(hash);
}

/// Whatever devices do, and but for a restart, a marked block ceases to be so in one way only: it was read in
/// this event, and its device gave other bytes than those of its leaf.
pub fn step_unmarks_by_bytes<H: NodeHash>()
    ensures { StepUnmarksByBytes H.digest }
{}

/// An event changes a device by one write at most, of a block that is missing: all of it, at its place. What
/// waits or is marked is never written.
pub fn step_writes_missing<H: NodeHash>()
    ensures { StepWritesMissing H.digest }
{}

/// After any list of events from the start of a torrent at most 64 peers are connected, in the order of
/// their keys, and to none of them was a fault of its stream answered. Each is asked for at most 16 blocks,
/// each once and missing, and no block is asked of more than three.
pub fn runs_are_orderly<H: NodeHash>()
    ensures { RunsAreOrderly H.digest }
{}

/// After any list of events from the start of a torrent there are its files, each with a state for each block
/// and, where it has one, the tree of its root, and one tree for each root. A log is there as at the start,
/// and without one there is no hint.
pub fn runs_keep_shape<H: NodeHash>()
    ensures { RunsKeepShape H.digest }
{}

/// Where the blocks of a group were claimed together and found right, the tree answers the keys of the proofs
/// that are left for a log, and they are of the right shape.
pub fn proof_keys_are_answered<H: NodeHash>()
    ensures { ProofKeysAreAnswered H.digest }
{
    heights_are_least();
}

/// What has become marked, whole and complete between two engines is among the blocks in which they differ,
/// their pieces and their files; so an event's haves and notes need no look at all blocks.
pub fn news_is_of_changes()
    ensures marked { NewMarkedBlocksAreOfChanges }
    ensures whole { NewWholePiecesAreOfChanges }
    ensures announced { HavesAreOfChanges }
    ensures complete { NewCompleteFilesAreOfChanges }
{}

/// A piece is whole exactly where each block that lies in it is marked. In a torrent that has been read those
/// are the blocks that `Torrent::blocks_of` gives.
pub fn whole_pieces_are_marked()
    ensures blocks { PieceIsWhole }
    ensures run { RunIsWhole }
{
    blocks_and_ranges_agree();
}

/// No call leads from devices to themselves, calls of one file's device are calls of all devices, and calls
/// and then others, as those of two events, are these calls one after the other.
pub fn device_calls_compose<D: Disk>()
    ensures none { NoCallsLead D.conduct }
    ensures one { CallsOfOneLead D.conduct }
    ensures both { CallsCompose D.conduct }
{}

/// Lists of events of an engine with its devices are put together, event by event or list by list; and what
/// is said of lists of events whatever the devices are, is said of them.
pub fn runs_compose<D: Disk, H: NodeHash>()
    ensures none { NoEventsRun D.conduct H.digest }
    ensures one_more { OneMoreEventRuns D.conduct H.digest }
    ensures both { RunsCompose D.conduct H.digest }
    ensures are_runs { RunsAreRuns D.conduct H.digest }
{}

/// Each frame that an event sends fits and can be written: where an engine has the files and trees of a
/// lawful torrent, each tree with digests of 32 bytes, and so after any list of events from the start of one.
pub fn events_send_what_fits<H: NodeHash>(hash: H)
    ensures step { StepSendsWhatFits H.digest }
    ensures runs { RunsSendWhatFits H.digest }
{
    layers_are_sound(hash);
    roots_are_sound(hash);
    keeps_rooted(hash);
    heights_are_least();
}
