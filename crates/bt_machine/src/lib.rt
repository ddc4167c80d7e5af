//! A seed store of BitTorrent v2 (BEP 3, BEP 52) as a machine over events: what one event answers and leaves,
//! and what follows for lists of events. There are definitions and laws, and the types that
//! code shares with them; the engine that runs as the machine does is in crates above.
#![tactic(auto)]

mod answer;
mod error;
mod event;
mod hash_state;
mod law;
mod log_law;
mod report;

pub use answer::{Frame, Note, Output, Why};
pub use error::{
    AdoptError, ConnectError, EngineError, FlushError, RestartError, StartError, StartRefused,
};
pub use event::{Answer, Event};
pub use hash_state::HashState;
pub use law::{
    complete_files_are_published, complete_files_stand, device_calls_compose,
    events_send_what_fits, flush_keeps_blocks, honest_devices_were_so, news_is_of_changes,
    proof_keys_are_answered, restart_marks_by_bytes, right_is_checked, run_keeps_images,
    run_keeps_marks, run_marks_by_bytes, run_sends_read_bytes, runs_are_checked, runs_are_orderly,
    runs_compose, runs_keep_flushed_blocks, runs_keep_shape, start_marks_by_bytes,
    starts_keep_laws, step_keeps_images, step_marks_by_bytes, step_unmarks_by_bytes,
    step_writes_missing, steps_keep_laws, whole_pieces_are_marked,
};
pub use log_law::{
    backed_blocks_are_marked_again, engines_are_of_logs, flushed_blocks_are_marked_again,
    group_proofs_follow, hints_lead_trees, hints_record_marks, logs_back_engines, logs_stand,
    restarts_read_all,
};
pub use report::FileReport;
