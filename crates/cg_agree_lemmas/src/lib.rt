//! The lower half of the proof of agreement: what single steps, turns, messages and nodes do, as lemmas over the
//! definitions of `cg_model`.
//!
//! Lemmas alone (`specs/`), those whose files cite few others; `cg_agree` goes on from them. They are a crate of their
//! own so that they can be checked beside other crates: both halves together take too much memory for that.
#![tactic(auto)]
