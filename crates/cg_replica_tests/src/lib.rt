//! Some lines of use for a replica and for its store, as docs/LIBRARIES.md shows them, and what comes of a disk of the older
//! format.
//!
//! Tests alone, as those of `cg_library_tests`: each makes a value, makes a few calls, and asserts what comes of them by the rules
//! of the layer. They are meant to be copied, so each stands by itself, with what it imports; nothing stands on this crate.
#![tactic(auto)]

#[cfg(test)]
mod engine;
#[cfg(test)]
mod older;
#[cfg(test)]
mod replica;
#[cfg(test)]
mod store;
