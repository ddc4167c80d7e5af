//! What a wire event leaves for the log: its proof, and then the marks that its notes tell.
ghost use Rattle.std.specs.Prelude.{[], ◌∷◌, ◌≡◌, ◌+◌, ◌≤◌, IfSome, OnErr, OnOk, length};
ghost use Rattle.std.specs.Option.{option_to_list};
ghost use Rattle.bt_resume.specs.Hint.{CanBeRead};
ghost use Rattle.bt_machine.specs.Hints.{add_hints};
ghost use Rattle.bt_engine_state.specs.Parts.{state_of, log_of};
ghost use Rattle.bt_engine.specs.PendingSteps.{marks_of, marks_in, hints_told, with_hints, HasHintRoom, AreInside};

use bt_disk::Disk;
use bt_engine_state::{Parts, Pending};
use bt_machine::Note;
use bt_resume::Hint;
use bt_tree::NodeHash;
use std::alloc::AllocError;

/// Makes room for `count` hints more, where there is a log. Errors: out of memory, and then nothing has
/// changed.
pub(crate) fn reserve_hints<D: Disk + Drop, H: NodeHash>(
    parts: &mut Parts<D, H>,
    count: usize,
) -> Result<(), AllocError>
    ensures room { OnOk result (HasHintRoom count parts.new.log) }
    ensures unchanged { OnErr result (parts.new ≡ parts.old) }
    ensures state { state_of parts.new ≡ state_of parts.old }
    ensures log { log_of parts.new ≡ log_of parts.old }
    ensures others { parts.new ≡ record parts.old { log = parts.new.log } }
{
    match &mut parts.log {
        Some(opened) => opened.pending.reserve(count),
        None => Ok(()),
    }
}

/// Where there is a log, puts a proof after the hints that wait for it, and then marks of the blocks that
/// notes say are marked.
pub(crate) fn record_hints<D: Disk + Drop, H: NodeHash>(
    parts: &mut Parts<D, H>,
    proof: Option<Hint>,
    notes: &[Note],
)
    requires room { HasHintRoom (length (hints_told proof notes.now)) parts.old.log }
    requires readable { IfSome proof CanBeRead }
    requires inside { AreInside notes.now }
    ensures state { state_of parts.new ≡ with_hints (state_of parts.old)
        (hints_told proof notes.now) }
    ensures log { log_of parts.new ≡ log_of parts.old }
    ensures others { parts.new ≡ record parts.old { log = parts.new.log } }
{
    if let Some(opened) = &mut parts.log {
        push_hints(&mut opened.pending, proof, notes);
    }
}

/// Puts a proof after the others, and then marks.
fn push_hints(pending: &mut Pending, proof: Option<Hint>, notes: &[Note])
    requires room { length (hints_told proof notes.now) ≤ pending.old.room }
    requires readable { IfSome proof CanBeRead }
    requires inside { AreInside notes.now }
    ensures { pending.new.hints ≡ add_hints pending.old.hints (hints_told proof notes.now) }
{
    push_proof(pending, proof);
    push_marks(pending, notes);
}

/// Puts a proof after the others, if there is one.
fn push_proof(pending: &mut Pending, proof: Option<Hint>)
    requires room { length (option_to_list proof) ≤ pending.old.room }
    requires readable { IfSome proof CanBeRead }
    ensures hints { pending.new.hints ≡ add_hints pending.old.hints (option_to_list proof) }
    ensures room { pending.old.room ≤ pending.new.room + length (option_to_list proof) }
{
    if let Some(hint) = proof {
        pending.push(hint);
    }
}

/// Puts marks of the blocks that notes say are marked after the others.
fn push_marks(pending: &mut Pending, notes: &[Note])
    requires room { length (marks_in notes.now) ≤ pending.old.room }
    requires inside { AreInside notes.now }
    ensures { pending.new.hints ≡ add_hints pending.old.hints (marks_in notes.now) }
{
    for note in notes {
        push_mark(pending, note);
    }
}

/// Puts the mark of one block after the others, where the note says that it is marked.
fn push_mark(pending: &mut Pending, note: &Note)
    requires room { length (marks_of note.now) ≤ pending.old.room }
    requires inside { AreInside (note.now ∷ []) }
    ensures hints { pending.new.hints ≡ add_hints pending.old.hints (marks_of note.now) }
    ensures room { pending.old.room ≤ pending.new.room + length (marks_of note.now) }
{
    if let Note::Marked(block) = note {
        pending.push_mark(block.file, block.block);
    }
}
