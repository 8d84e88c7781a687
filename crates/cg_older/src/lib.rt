//! Records of the older format of a replica's disk. No weight stands in them, since each is 1; all else is as in the
//! newer format.
//!
//! Whoever finds a record of the older format translates it: `newer_change` and `newer_checkpoint` give the record of
//! the newer format that says the same, so that nothing else has to know of the older one. `old_checkpoint` makes one.
//! What the bytes of the older format are is in `specs/Bytes.antt`, how they are read in `specs/Reading.antt`, and what
//! they stand for in `specs/Older.antt`.
#![tactic(auto)]

mod change;
mod checkpoint;
mod laws;
mod lists;
mod reached;
mod servers;
mod stable;
mod weights;

pub use change::newer_change;
pub use checkpoint::{newer_checkpoint, old_checkpoint};
pub use laws::old_checkpoints_are_exact;
pub use weights::has_weights;
