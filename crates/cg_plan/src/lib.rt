//! The retransmission plan of an exchange: what is sent again, in which order and by whom.
//!
//! The plan is a function of the summaries (`specs/Plan.antt`). It is kept as parts with their ranges, never as a list of
//! items, and takes one item after the other: the next one from its sender is accepted, every other one is refused with
//! the item that is wanted. What the items do is left to the layers above.
#![tactic(auto)]

mod laws;
mod making;
mod parts;
mod place;
mod progress;

pub use laws::plans_end;
pub use parts::{Item, Other, Part, SentItem, SentPart};
pub use progress::Plan;
