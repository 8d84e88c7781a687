//! A run: the words of a command, the input that is taken, the lines one after the other, and what is put of them.
//!
//! `run` is the top call, over any source and any sink. What it puts and how it ends is `outcome` of its words, of the
//! bytes taken and of how the taking ended (`cg_outcome`), and that outcome's steps are a run of the world. Where the
//! words come from, and what source and sink are, is left to the program above.
#![tactic(auto)]

mod agreement;
mod asking;
mod comparing;
mod ending;
mod following;
mod further;
mod imaging;
mod inspecting;
mod line_reader;
mod progress;
mod refusing;
mod relaxing;
mod replay;
mod rounds;
mod running;
mod sessions;
mod steps;
mod streaming;
mod trial;
mod world_in_place;

pub use cg_outcome::{ArgText, Explained, Limit, Status};
pub use running::run;
