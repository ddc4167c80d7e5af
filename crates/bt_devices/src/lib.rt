//! Devices round another one: read ahead, closed to writes by a seal, or watched, which rings an alarm where a
//! write fails. And digests that are made ahead, eight blocks at a time, and are looked up where a block is to be
//! digested.
#![tactic(auto)]

mod alarm;
mod cache;
mod comparison;
mod disk;
mod hash;
mod sealed_disk;
mod watched;

pub use alarm::Alarm;
pub use cache::DigestCache;
pub use disk::ReadAheadDisk;
pub use hash::CachedLanes;
pub use sealed_disk::{Seal, SealedDisk};
pub use watched::Watched;
