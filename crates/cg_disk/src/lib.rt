//! A disk of two sides, and a disk in memory.
//!
//! The contract of `Disk` is one view of a disk: what a read gives, the images that a crash now may leave, those that
//! a crash at some moment since a time may have left, the number of calls made, the faults, and, where the disk tells
//! it, what it held at the last sync, the offsets written since and the strike that is armed. Each call says how it leads
//! from one view to the next. What the bytes mean is left to the journal above.
#![tactic(auto)]

mod armed;
mod bytes;
mod crash;
mod disk;
mod model_disk;
mod model_side;
mod past;
mod written;

pub use disk::{Disk, DiskFault, Side};
pub use model_disk::ModelDisk;
