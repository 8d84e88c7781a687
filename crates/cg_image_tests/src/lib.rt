//! The tests of images of disks: what is seen in that of a replica that was started, in one of the older format, in one
//! without its last byte, and in one of an empty disk.
//!
//! Tests alone, over the public calls of `cg_image`; nothing stands on this crate. Each expected value was worked out by
//! hand.
#![tactic(auto)]

#[cfg(test)]
mod images;
