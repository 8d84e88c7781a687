//! What the steps of a run show, as JSON: an object a line.
//!
//! `json` puts an entry as one compact object, with `serde_json`: the lines of its text, and the number of its step.
//! `json_tail` puts the last line of a report. Their texts are `entry_json` and `tail_json` (`specs/JsonText.antt`);
//! that such a text, read back, holds exactly the lines of the report's text is a law (`laws.rt`). What comes into an
//! entry and what a tail says is decided elsewhere.
#![tactic(auto)]

mod entry;
mod laws;
mod lines;
mod objects;

pub use entry::json;
pub use laws::objects_tell_their_lines;
pub use objects::json_tail;
