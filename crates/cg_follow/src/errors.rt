use cg_disk::Disk;
use std::fmt;
use std::fmt::{Display, Formatter, Write};

/// What ended the making or a feed of a follower.
#[derive(Drop)]
pub enum FollowErr<D: Disk> {
    /// A device call failed.
    Lost(D),
    /// Memory was refused, and no device call failed.
    NoMemory(D),
}

/// Why a follower's disk wasn't opened.
#[derive(Drop)]
pub enum FollowOpen<D: Disk> {
    /// A device call failed.
    Lost(D),
    /// The disk stands for no follower.
    NotAFollower(D),
    /// Memory was refused, and no device call failed.
    NoMemory(D),
}

impl<D: Disk> Display for FollowErr<D> {
    fn fmt<W: Write>(&self, f: &mut Formatter<W>) -> fmt::Result {
        match self {
            FollowErr::Lost(_) => f.write_str("a device call failed"),
            FollowErr::NoMemory(_) => f.write_str("memory was refused"),
        }
    }
}

impl<D: Disk> Display for FollowOpen<D> {
    fn fmt<W: Write>(&self, f: &mut Formatter<W>) -> fmt::Result {
        match self {
            FollowOpen::Lost(_) => f.write_str("a device call failed"),
            FollowOpen::NotAFollower(_) => f.write_str("the disk stands for no follower"),
            FollowOpen::NoMemory(_) => f.write_str("memory was refused"),
        }
    }
}
