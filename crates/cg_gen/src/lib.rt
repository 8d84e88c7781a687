//! The schedules that seeds generate.
//!
//! `specs/Generated.antt` defines the schedule of a seed, of so many lines, for so many replicas: which events its lines
//! spell. `Generator` gives these events one after the other, and `generate` puts all of their lines; how many they are, and that
//! each may stand where it does, is the law `generated_schedules_are_whole`. Running them is left to the layers above.
#![tactic(auto)]

mod block_lines;
mod cells;
mod client;
mod draws;
mod generator;
mod generator_state;
mod halves;
mod laws;
mod writing;

pub use generator::Generator;
pub use laws::generated_schedules_are_whole;
pub use writing::generate;
