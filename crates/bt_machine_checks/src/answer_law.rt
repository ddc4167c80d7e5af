//! A have is sent exactly where an event made its piece whole, a file is noted as complete exactly where a
//! message made it so, and a peer is closed only for what it sent. The functions do nothing when they run.
ghost use Rattle.bt_machine_checks.specs.AnswerLaw.{StepAnnouncesWholePieces, NextNotesCompleteFiles, StepClosesForCause};

use bt_tree::NodeHash;

/// A have is sent to every peer that is connected, exactly where its piece became whole in this event.
pub fn step_announces_whole_pieces<H: NodeHash>(_hash: H)
    ensures { StepAnnouncesWholePieces H.digest }
{}

/// A file is noted as complete exactly where a message of a peer made it so.
pub fn next_notes_complete_files<H: NodeHash>(_hash: H)
    ensures { NextNotesCompleteFiles H.digest }
{}

/// A peer is closed only for what it sent.
pub fn step_closes_for_cause<H: NodeHash>(_hash: H)
    ensures { StepClosesForCause H.digest }
{}
