//! Where the program's bytes come from and where they go.
//!
//! `Source` and `Sink` say what a take and a put do to the bytes that are still to come and to those that were put,
//! where the implementation tells them, and count the faults. Everything above is written against these two traits:
//! what a run comes to is stated in the bytes taken and put, whatever they come from. The adapters over the system's
//! reader and writer are the trusted edge: they tell no bytes.
#![tactic(auto)]

mod clean;
mod front;
mod memory;
mod outside;
mod standard;

pub use clean::{CleanSink, CleanSource};
pub use memory::{MemSink, MemSource};
pub use outside::{Failed, IoFault, Sink, Source};
pub use standard::{StdSink, StdSource};
