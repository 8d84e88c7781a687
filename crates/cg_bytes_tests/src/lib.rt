//! The tests of the plain values and of what spells them, where no contract and no case of the program says it: bytes
//! made by hand, lines of a schedule and of sessions, adapters of sources and sinks, and the words of faults.
//!
//! Tests alone, a module a layer, over the public calls of each; nothing stands on this crate. They stand here and not in
//! the crates, since the gate proves a crate that has tests a second time. Each expected value was worked out by hand.
#![tactic(auto)]

#[cfg(test)]
mod action;
#[cfg(test)]
mod bytes;
#[cfg(test)]
mod io;
#[cfg(test)]
mod records;
#[cfg(test)]
mod schedule;
#[cfg(test)]
mod session;
#[cfg(test)]
mod table;
#[cfg(test)]
mod text;
#[cfg(test)]
mod wire;
#[cfg(test)]
mod words;
