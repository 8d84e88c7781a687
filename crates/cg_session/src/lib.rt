//! Sessions: what a client wrote and saw, at whichever replicas.
//!
//! A session's `Token` has the position in the global order that the session has seen, and the names of the actions
//! that it wrote (`specs/Token.antt`). No state below that position is read: so a session sees the order go forward
//! alone, and its own actions once it was told of them, as `tokens_never_fall` says. `read_session` reads a line of
//! sessions (`specs/Line.antt`), and `session_lines_are_exact` says which lines those are. Which sessions are open, and
//! what replicas answer, is left to the layers above.
#![tactic(auto)]

mod action_key;
mod event;
mod laws;
mod print;
mod reader;
mod token;
mod word;

pub use event::SessionEvent;
pub use laws::{printed_session_lines_are_read, session_lines_are_exact, tokens_never_fall};
pub use reader::read_session;
pub use token::{BehindErr, Token};
