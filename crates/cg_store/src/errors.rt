use cg_disk::Disk;
use std::fmt;
use std::fmt::{Display, Formatter, Write};

/// What ended a call that writes.
#[derive(Drop)]
pub enum CommitErr<D: Disk> {
    /// A device call failed.
    Lost(D),
    /// Memory was refused, and no device call failed.
    NoMemory(D),
}

/// What ended the opening of a store.
#[derive(Drop)]
pub enum OpenErr<D: Disk> {
    /// A device call failed.
    Lost(D),
    /// The disk stands for no state of this replica.
    NotAStore(D),
    NoMemory(D),
}

impl<D: Disk> Display for CommitErr<D> {
    fn fmt<W: Write>(&self, f: &mut Formatter<W>) -> fmt::Result {
        match self {
            CommitErr::Lost(_) => f.write_str("a device call failed"),
            CommitErr::NoMemory(_) => f.write_str("memory was refused"),
        }
    }
}

impl<D: Disk> Display for OpenErr<D> {
    fn fmt<W: Write>(&self, f: &mut Formatter<W>) -> fmt::Result {
        match self {
            OpenErr::Lost(_) => f.write_str("a device call failed"),
            OpenErr::NotAStore(_) => f.write_str("the disk stands for no state of this replica"),
            OpenErr::NoMemory(_) => f.write_str("memory was refused"),
        }
    }
}
