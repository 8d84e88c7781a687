//! Runs over a source and a sink of which a take or a put fails, what people are told of a run's end, and what a world says
//! of an action that was made.
//!
//! Tests alone, over the public calls of `cg_run` and `cg_world`; nothing stands on this crate. What a whole report
//! says is shown by the worked cases of the program.
#![tactic(auto)]

#[cfg(test)]
mod runs;
#[cfg(test)]
mod words;
#[cfg(test)]
mod worlds;
