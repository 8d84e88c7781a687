//! What stands on a replica's disk: a checkpoint of all that it held, and the changes that commits made since, in bytes;
//! when an event writes there, and what a crash in it leaves.
//!
//! A checkpoint and a change have one spelling each (`specs/Checkpoint.antt`, `specs/Change.antt`). What is within the
//! limits is read again as it was written, and nothing else is read. Records are put from borrowed parts, so that nothing
//! is copied.
//!
//! When an event writes (`specs/Commit.antt`) and what a crash leaves (`specs/Crash.antt`) are definitions; that what a
//! replica holds agrees, whatever comes to it (`specs/Holds.antt`), is a law (`commit_laws.rt`). On which side of the disk
//! records stand is left to the layers above.
#![tactic(auto)]

mod agreement;
mod change;
mod checkpoint;
mod commit_laws;
mod entries;
mod kept;
mod laws;
mod limits;
mod lists;
mod reached;
mod servers;
mod writing;

pub use agreement::count_of;
pub use change::{Change, put_change};
pub use checkpoint::{
    Checkpoint, KeptActions, Reached, decode_checkpoint, generation_of, read_checkpoint,
};
pub use commit_laws::what_is_held_agrees;
pub use entries::{put_entries, put_entry, take_entries, take_entry};
pub use laws::{
    agreement_is_tested, changes_are_exact, checkpoints_are_exact, lists_are_exact, parts_are_exact,
};
pub use limits::CHECKPOINT_BYTES;
pub use lists::{put_actions, take_actions};
pub use reached::{put_reached, take_reached};
pub use writing::put_checkpoint;
