//! The causes for which a session with a peer ends.
use bt_machine::Why;

/// How a session with a peer ended.
#[derive(Clone, Copy, Debug, PartialEq, Eq)]
pub enum SessionEnd {
    /// All files are complete.
    Complete,
    /// The reader has no more bytes.
    Ended,
    /// The engine closed the peer.
    Closed(Why),
    /// It had as many turns as it was given.
    TurnsSpent,
    /// The reader failed.
    ReadFault,
    /// The writer failed.
    WriteFault,
    /// Out of memory.
    Memory,
}
