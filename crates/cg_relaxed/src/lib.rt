//! The relaxed database: what a set of known actions makes, whatever their order.
//!
//! It is a conflict-free replicated data type: an `inc` adds to a sum, a `put` or `del` writes a register under a stamp,
//! and the greatest stamp wins. An update with a command that asks what stands there, and a join or a leave, are passed
//! over whole. `specs/Cells.antt` says what a list of actions makes of a key, and `laws` that their order doesn't matter
//! and that values may be joined in any order and any number of times. Which actions are known is left to callers.
#![tactic(auto)]

mod cell;
mod laws;
mod registers;
mod relaxed;
mod run;
mod sum_key;
mod sums;
mod write;

pub use cell::Cell;
pub use laws::relaxed_values_agree;
pub use relaxed::Relaxed;
