//! The limits of numbers that many layers share. No run comes near them: what would pass one is answered as want of
//! memory.

/// Actions of one creator, greens of a replica, calls of a disk, faults, and things that are counted like these: fewer.
pub const COUNT_LIMIT: u64 = 1 << 62;

/// Numbers of records and messages (places in the order, indexes, configurations, generations), and offsets on a disk,
/// are below this.
pub const NUMBER_LIMIT: u64 = 1 << 63;

/// A list of a record, and a record's bytes, are shorter than this: their length has four bytes.
pub const LIST_LIMIT: usize = 1 << 32;
