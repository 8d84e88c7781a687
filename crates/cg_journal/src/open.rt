use crate::bodies::Bodies;
use cg_disk::Disk;
use std::fmt;
use std::fmt::{Display, Formatter, Write};

/// What ended the formatting of a disk.
#[derive(Drop)]
pub enum FormatErr<D: Disk> {
    /// A device call failed.
    Lost(D),
    /// Memory was refused to a device call.
    NoMemory(D),
}

/// What ended the going over of a side to the newer format.
#[derive(Drop)]
pub enum MigrateErr<D: Disk> {
    /// A device call failed.
    Lost(D),
    /// Memory was refused, and no device call failed.
    NoMemory(D),
}

/// What is found on a side: its format, 1 for the older one, 2 for the newer one, and 0 for none; and the bodies of its
/// records, none where it has no format.
#[derive(Drop)]
pub struct SideRecords {
    pub version: u8,
    pub bodies: Bodies,
}

/// What ended the opening of a journal.
#[derive(Drop)]
pub enum JournalOpen<D: Disk> {
    /// A device call failed.
    Lost(D),
    /// A side is shorter than nine bytes, or ends in a record that doesn't fit; or the header is lacking, on both sides
    /// where either format is opened.
    NotAJournal(D),
    /// Memory was refused. What a read gives is as it was.
    NoMemory(D),
}

impl<D: Disk> Display for FormatErr<D> {
    fn fmt<W: Write>(&self, f: &mut Formatter<W>) -> fmt::Result {
        match self {
            FormatErr::Lost(_) => f.write_str("a device call failed"),
            FormatErr::NoMemory(_) => f.write_str("memory was refused"),
        }
    }
}

impl<D: Disk> Display for MigrateErr<D> {
    fn fmt<W: Write>(&self, f: &mut Formatter<W>) -> fmt::Result {
        match self {
            MigrateErr::Lost(_) => f.write_str("a device call failed"),
            MigrateErr::NoMemory(_) => f.write_str("memory was refused"),
        }
    }
}

impl<D: Disk> Display for JournalOpen<D> {
    fn fmt<W: Write>(&self, f: &mut Formatter<W>) -> fmt::Result {
        match self {
            JournalOpen::Lost(_) => f.write_str("a device call failed"),
            JournalOpen::NotAJournal(_) => f.write_str("the disk is no journal"),
            JournalOpen::NoMemory(_) => f.write_str("memory was refused"),
        }
    }
}
