//! The digest of the program's trees: this is the one place that names it.

/// SHA-256 (FIPS 180-4), of eight inputs at once where there are eight.
pub use bt_lanes::Lanes as FileHash;
