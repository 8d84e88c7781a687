//! Some lines of use for each layer below a replica that stands alone, as docs/LIBRARIES.md shows them.
//!
//! Tests alone: each makes a value, makes a few calls, and asserts what comes of them by the rules of the layer. They are
//! meant to be copied, so each stands by itself, with what it imports; nothing stands on this crate.
#![tactic(auto)]

#[cfg(test)]
mod database;
#[cfg(test)]
mod disk;
#[cfg(test)]
mod follower;
#[cfg(test)]
mod group;
#[cfg(test)]
mod journal;
#[cfg(test)]
mod knowledge;
#[cfg(test)]
mod plan;
#[cfg(test)]
mod queue;
#[cfg(test)]
mod voting;
