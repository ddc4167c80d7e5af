//! A log of what may be known of a torrent's files, for the next start: proofs of digests and marks of
//! blocks. Nothing that is read from it is trusted.
#![tactic(auto)]

mod contents;
mod error;
mod hint;
mod hints;
mod law;
mod reader;
mod resume_log;
mod writer;

pub use error::{AppendError, LogError, Refused};
pub use hint::{Format, Hint, LentHint};
pub use hints::{HintIter, Hints};
pub use law::{
    hints_are_read_back, kept_devices_open, kept_hints_stand, kept_logs_open, logs_hold_hints,
    logs_keep_hints,
};
pub use resume_log::ResumeLog;
