//! The tests of the layers below a replica, where no contract and no case of the program says it: the words of faults, and
//! the rules of an exchange worked by hand, verdict by verdict and plan by plan.
//!
//! Tests alone, a module a layer, over the public calls of each; nothing stands on this crate. They stand here and not in
//! the crates, since the gate proves a crate that has tests a second time. Each expected value was worked out by hand.
#![tactic(auto)]

#[cfg(test)]
mod knowledge;
#[cfg(test)]
mod plan;
#[cfg(test)]
mod summaries;
#[cfg(test)]
mod table;
#[cfg(test)]
mod words;
