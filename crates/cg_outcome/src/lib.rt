//! What a run comes to: which command the words are, the items that the lines of an input make, what is put of these,
//! and how the run ends.
//!
//! Definitions (`outcome` in specs/Outcome.antt is the whole run), plain values, texts and limits; and the law that the
//! steps of every outcome are a run of the world, and so agree (`outcomes_agree`). What items are, and what a command
//! keeps beside the world, is in `cg_items`; the code that steps a world is left to `cg_run`. What a status says to people
//! (`Explained`) is in no contract: a table in `cg_run_tests` has it.
#![tactic(auto)]

mod arg_text;
mod bounds;
mod command;
mod explained;
mod item_text;
mod laws;
mod limits;
mod line;
mod putting;
mod refusals;
mod status;
mod syntax;
mod tail;
mod totals;

pub use arg_text::ArgText;
pub use cg_items::{Companion, Further, FurtherLine, Report};
pub use command::{Command, command_of};
pub use explained::Explained;
pub use laws::outcomes_agree;
pub use limits::{INPUT_BYTES, LINE_BYTES, LINES, STEPS, TAKE_BYTES};
pub use line::{held_limit, passed_limit, without_return};
pub use putting::{finish, finish_inspection, finish_logs, put_schedule, put_step, put_text};
pub use status::{Limit, Status};
pub use totals::{Totals, put_summary};
