//! The tests of a replica's disk, where no contract and no case of the program says it: disks made by hand, byte by byte, and
//! the words of faults.
//!
//! Tests alone, over the public calls of `cg_store` and `cg_join`; nothing stands on this crate. Each expected value was
//! worked out by hand.
#![tactic(auto)]

#[cfg(test)]
mod disks;
#[cfg(test)]
mod table;
#[cfg(test)]
mod words;
