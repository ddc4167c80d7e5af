//! What a message of a peer must lead to, but for out of memory and faults of devices: hashes, marked blocks,
//! cancels, served ranges and notes. The functions do nothing when they run.
ghost use Rattle.bt_machine_checks.specs.AnswerDue.{NextAnswersHashRequest, NextMarksRightBlock, NextCancelsStoredBlock, NextServesMarkedRange, NextNotesMarkedBlocks, NextSettlesWaitingBlocks, WaitingIsNotComplete};

use bt_meta::block_ranges_are_places;
use bt_tree::NodeHash;

/// Out of memory aside: a hash request is answered with the digests that it asks for, and rejected only where
/// it is not right or one of them is unknown.
pub fn next_answers_hash_request<H: NodeHash>(_hash: H)
    ensures { NextAnswersHashRequest H.digest }
{}

/// Out of memory aside: a whole block that the peer was asked for, with the digest of its leaf, is marked,
/// unless the device refuses to write it.
pub fn next_marks_right_block<H: NodeHash>(_hash: H)
    ensures { NextMarksRightBlock H.digest }
{
    block_ranges_are_places();
}

/// Where a whole block comes that the peer was asked for, others are sent a cancel of it exactly where it is
/// stored and they were asked for it, too.
pub fn next_cancels_stored_block<H: NodeHash>(_hash: H)
    ensures { NextCancelsStoredBlock H.digest }
{
    block_ranges_are_places();
}

/// Out of memory aside: a request of a peer that is not choked, for a range whose blocks are marked, is
/// served, unless a block is found damaged or cannot be read.
pub fn next_serves_marked_range<H: NodeHash>(_hash: H)
    ensures { NextServesMarkedRange H.digest }
{}

/// A block that a message of a peer makes marked is noted.
pub fn next_notes_marked_blocks<H: NodeHash>(_hash: H)
    ensures { NextNotesMarkedBlocks H.digest }
{}

/// A block whose leaf a message of a peer tells is settled, in every file of the root: a block that waits
/// after a message has an unknown leaf, unless it waited before for one that was known.
pub fn next_settles_waiting_blocks<H: NodeHash>(_hash: H)
    ensures { NextSettlesWaitingBlocks H.digest }
{}

/// A file is not complete while a block of it waits.
pub fn waiting_is_not_complete()
    ensures { WaitingIsNotComplete }
{}
