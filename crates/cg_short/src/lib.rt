//! What a step shows is printed whole: no number in an entry has more digits than are printed.
//!
//! `entry_is_short` says so of each entry, as the numbers in it are those of machine words. It reads the entry, and
//! changes and answers nothing. That texts then tell entries apart is left to `cg_laws`.
#![tactic(auto)]

mod actions;
mod answers;
mod entry;
mod lines;
mod names;
mod records;

pub use entry::entry_is_short;
