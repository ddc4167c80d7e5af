//! That the definitions of `bt_machine` say what they should: that they leave nothing free but which blocks
//! are requested, and that they let certain wrong engines in nowhere. Nothing stands on it.
#![tactic(auto)]

mod answer_due;
mod answer_law;
mod left_free;

pub use answer_due::{
    next_answers_hash_request, next_cancels_stored_block, next_marks_right_block,
    next_notes_marked_blocks, next_serves_marked_range, next_settles_waiting_blocks,
    waiting_is_not_complete,
};
pub use answer_law::{
    next_notes_complete_files, step_announces_whole_pieces, step_closes_for_cause,
};
pub use left_free::{runs_are_determined, step_is_determined, step_is_forced};
