//! What the devices of a store share.

use crate::file_use::FileUse;
use bt_devices::{Alarm, DigestCache, Seal};
use std::cell::RefCell;

/// What the devices of a store share with each other and with the connections to the engine.
#[derive(Clone, Copy)]
pub struct DeviceContext<'a> {
    /// What the files are opened for.
    pub usage: FileUse,
    /// Holds the digests that are made ahead of time, as blocks are read.
    pub digests: &'a RefCell<DigestCache>,
    /// Rings once a device has refused a write.
    pub alarm: &'a Alarm,
    /// Once this seal is closed, no data file is written any more.
    pub seal: &'a Seal,
    /// The seal of the log, which nobody closes: a log is written to the end.
    pub log_seal: &'a Seal,
}
