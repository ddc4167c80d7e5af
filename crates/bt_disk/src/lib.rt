//! Devices of bytes that may fail at any call, and what a crash may leave of them.
#![tactic(auto)]

mod device_files;
mod disk;
mod fault_disk;
mod file_disk;
mod handle;
mod law;
mod loss;
mod medium;
mod memory_disk;
mod open_handles;
mod opening;
mod pool;

pub use device_files::DeviceFiles;
pub use disk::{DeviceFault, Disk};
pub use fault_disk::FaultDisk;
pub use file_disk::FileDisk;
pub use handle::is_absence;
pub use law::{
    a_loss_leaves_one_image, a_sync_keeps_all, calls_compose, calls_keep_bytes, calls_keep_lengths,
    calls_reach_their_range, devices_keep_bytes, devices_keep_lengths, reads_change_nothing,
};
pub use loss::Loss;
pub use memory_disk::MemoryDisk;
pub use opening::{FileIdentity, Opening};
pub use pool::{HandlePool, PooledDisk};
