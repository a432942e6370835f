//! Disks: what a read gives, what a crash at any moment may leave, and one in memory that is exact.
#![tactic(auto)]

mod disk;
mod mem_disk;
#[cfg(test)]
mod tests;

pub use disk::Disk;
pub use mem_disk::MemDisk;
