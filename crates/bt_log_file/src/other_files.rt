//! The files that the one of a log may not be.
use bt_folder::KnownFiles;
use bt_meta::Torrent;
use std::snapshot::Snapshot;

/// The files that the one of a torrent's log may not be: those that were known before it was opened, and those of the
/// torrent, of which it may have no name.
#[derive(Drop)]
pub(crate) struct OtherFiles<'a> {
    /// What was known before, as contracts alone see it.
    pub(crate) known: Snapshot<KnownFiles>,
    /// The folder that those of the torrent lie in.
    pub(crate) dir: &'a str,
    pub(crate) torrent: &'a Torrent,
}
