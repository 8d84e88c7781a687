//! What a step of a run shows, and its text.
//!
//! An entry has the actions made in the step, the places of the global order that were reached first, the lines of the
//! replicas that changed, the replies, and what was asked to be shown; `put_entry` puts its text, which is `entry_text`
//! (`specs/EntryText.antt`). What comes into an entry is decided above.
#![tactic(auto)]

mod entry;
mod entry_text;
mod line;
mod line_text;
mod page;
mod plain_text;
mod putting_entry;
mod putting_line;
mod reply_text;
mod shown_text;

pub use entry::{Entry, Made, Placed, Reply, Shown};
pub use entry_text::put_entry;
pub use line::{Line, ShownPhase, StateName, UpLine, View};
pub use line_text::put_line;
