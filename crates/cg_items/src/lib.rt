//! What a run comes to, event by event: the world's steps, and what a command does beside them.
//!
//! Definitions, with the types that they cite. An item (`specs/Items.antt`) has its number, the step of the world where it
//! makes one, and the lines that stand behind those of the step. What a command keeps beside the world, and events of its
//! own, are three types (`Companion`, `Further`, `FurtherLine`) and functions by cases on them (`specs/Companion.antt`).
//! What all items of a run agree on is stated here for each command (`specs/SessionsAgree.antt` and its like), and proved
//! above.
#![tactic(auto)]

mod companion;
mod report;

pub use companion::{Companion, Further, FurtherLine};
pub use report::Report;
