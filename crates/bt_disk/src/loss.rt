//! What a crash makes of what was not synced.

/// What a crash makes of the ranges that were written since the last sync, of gaps before them and of all
/// growth.
#[derive(Clone, Copy, Debug, PartialEq, Eq)]
pub enum Loss {
    /// It keeps them.
    Kept,
    /// It fills them with a byte.
    Filled(u8),
}
