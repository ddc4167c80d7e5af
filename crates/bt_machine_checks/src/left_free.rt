//! But for which blocks are requested and for out of memory, an engine's answers follow from what its devices
//! and its log answer. The functions do nothing when they run.
ghost use Rattle.bt_machine_checks.specs.LeftFree.{StepIsDetermined, StepIsForced, RunsAreDetermined};

use bt_meta::block_ranges_are_places;
use bt_tree::NodeHash;

/// From an engine that events lead to, what an event answers and what the engine knows then follow from what
/// devices and the log answer, but for which blocks are requested, and for out of memory.
pub fn step_is_determined<H: NodeHash>(_hash: H)
    ensures { StepIsDetermined H.digest }
{
    block_ranges_are_places();
}

/// Where an event's answer requests no block, or at most one block is missing after it, there is no other answer with
/// the same answers of devices and of the log and with memory.
pub fn step_is_forced<H: NodeHash>(_hash: H)
    ensures { StepIsForced H.digest }
{
    block_ranges_are_places();
}

/// Two lists of answers to the same events from an engine that events lead to, with the same answers of devices and of
/// the log, with memory and with requests of the same blocks, are one, and lead to the same engine.
pub fn runs_are_determined<H: NodeHash>(_hash: H)
    ensures { RunsAreDetermined H.digest }
{
    block_ranges_are_places();
}
