//! The sessions that are open in a run, and the lines that speak of them.
//!
//! A `SessionList` keeps what each open session has seen (`cg_session`), and answers what comes of openings, writes,
//! reads and replies, with the lines that are shown of them (`specs/Sessions.antt`). Which replica a session reads, and
//! which actions are made and replied to, is left to the layers above.
#![tactic(auto)]

mod print;
mod session;
mod session_line;
mod session_list;

pub use session::Session;
pub use session_line::SessionLine;
pub use session_list::SessionList;
