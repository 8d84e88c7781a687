//! The size of a side of a disk.

/// A side that is longer than this is followed by a checkpoint on the other side.
pub const CHECKPOINT_BYTES: u64 = 1 << 20;
