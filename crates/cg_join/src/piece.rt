use crate::SnapshotName;
use cg_action::{Action, Boxed, DbEntry, Limits};
use cg_disk_records::Reached;
use cg_records::Primary;

/// What stands in front of each part: the snapshot, the number of the piece from 1, and how many pieces there are.
#[derive(Clone, Copy, Debug, PartialEq, Eq)]
pub struct Label {
    pub name: SnapshotName,
    pub number: u64,
    pub count: u64,
}

/// What a replica has green and knows of primary components, but for the kept actions and the entries.
#[derive(Drop)]
pub struct SnapshotHead {
    pub prim: Primary,
    pub attempt_index: u64,
    pub reached: Reached,
}

/// What a piece brings. Most parts are entries, so that what is larger has a place of its own.
#[derive(Drop)]
pub enum PieceContent {
    Start(Boxed<SnapshotHead>),
    /// The next kept green action.
    Green(Boxed<Action>),
    /// The next entry of the database.
    Entry(DbEntry),
    End,
}

impl Limits for PieceContent {
    ghost use Rattle.cg_join.specs.Limits.{IsPart};

    ghost limit = { IsPart };
}

/// A piece of a snapshot.
#[derive(Drop)]
pub struct Piece {
    pub label: Label,
    pub part: PieceContent,
}
