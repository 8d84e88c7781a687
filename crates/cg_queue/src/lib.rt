//! The actions that a replica knows: green ones in their order, red ones, and which of these are yellow.
//!
//! A `Queue` is seen as the greens that it keeps with the number of those discarded before them, the reds by name, the
//! yellow names in their order, and the cuts, which count the discarded too. `specs/Queue.antt` says what each mark
//! makes of it. A run of calls costs no more than what they are given and answer: an action is found by its index among
//! its creator's, and never searched for; now and then a mark clears away yellow names that have become green. When an
//! action may be marked, and what it does, is left to the layers above.
#![tactic(auto)]

mod body;
mod distinct;
mod lanes;
mod mark;
mod next;
mod queue;
mod red;

pub use distinct::is_distinct;
pub use mark::{Mark, QueueFault};
pub use next::is_next;
pub use queue::Queue;
