//! Snapshots: what a replica has green goes to a joiner piece by piece.
//!
//! A piece has one spelling (`specs/Bytes.antt`): what is within the limits is read again as it was written, and nothing else
//! is read. A `SnapshotWriter` is a copy of what its replica had green, as the parts of its pieces; a `Joiner` takes the
//! pieces of one snapshot in turn, and from all of them makes the disk of the replica that `specs/Snapshot.antt` says a joiner
//! becomes. When pieces are handed over, and what comes of a crash, is left to the layers above.
#![tactic(auto)]

mod errors;
mod gather;
mod handing;
mod joiner;
mod laws;
mod name;
mod piece;
mod reading;
mod rebuild;
mod snapshot;
mod taking;
mod writing;

pub use errors::JoinErr;
pub use handing::hand_pieces;
pub use joiner::Joiner;
pub use laws::{joiners_agree, pieces_are_exact, snapshots_are_counted, snapshots_are_taken};
pub use name::SnapshotName;
pub use piece::{Label, Piece, PieceContent, SnapshotHead};
pub use reading::decode_piece;
pub use snapshot::SnapshotWriter;
