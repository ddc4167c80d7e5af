//! An engine's log, and what the next flush is to write to it.
use crate::pending::Pending;
use bt_disk::Disk;
use bt_resume::ResumeLog;

/// A log that an engine has.
#[derive(Drop)]
pub struct OpenLog<D: Disk + Drop> {
    pub log: ResumeLog<D>,
    /// What the next flush is to write to it.
    pub pending: Pending,
}
