//! A snapshot under way, from its giver to its joiner, as the world's definitions have it.
//!
//! The one contract: each call is the function of the same matter of `specs/Calls.antt`; what is known of the copy and of
//! the joiner that takes it stands in `specs/Copies.antt`.
#![tactic(auto)]

mod copying;
mod transfer;

pub use transfer::Transfer;
