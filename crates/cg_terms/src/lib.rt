//! What a run guarantees, in the words in which replicated stores are spoken of: linearizable, durable, exactly once, weak reads of
//! prefixes, no split brain.
//!
//! Definitions, and what is proved of them from the agreement of the steps of a run (`laws.rt`).
#![tactic(auto)]

mod laws;

pub use laws::agreement_gives_guarantees;
