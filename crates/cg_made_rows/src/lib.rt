//! The relaxed database of a run: the lines that ask for it and show it, and the made actions that it is read from.
//!
//! `read_relaxed` reads a line that asks for a key (`specs/Line.antt`), and `relaxed_lines_are_exact` says which lines
//! those are. `MadeRows` holds the actions that were made, in a row for each creator, and tells what stands at a key
//! where those of a cut are known (`specs/Rows.antt`). Which cut a replica knows, and which actions are made, is left to
//! the layers above.
#![tactic(auto)]

mod laws;
mod limits;
mod made_rows;
mod print;
mod reader;
mod relaxed_event;
mod relaxed_line;
mod rows;
mod values;
mod word;

pub use laws::relaxed_lines_are_exact;
pub use made_rows::MadeRows;
pub use reader::read_relaxed;
pub use relaxed_event::RelaxedEvent;
pub use relaxed_line::RelaxedLine;
