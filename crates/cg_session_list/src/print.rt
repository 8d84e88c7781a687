//! The lines of sessions as texts.

ghost use Rattle.std.specs.Prelude.{Some};
ghost use Rattle.cg_session_list.specs.Print.{session_text};

use crate::SessionLine;
use std::fmt;
use std::fmt::{Display, Formatter, Write};

/// The line, without its end.
impl Display for SessionLine {
    ghost output = { λ line. Some (session_text line) };

    fn fmt<W: Write>(&self, f: &mut Formatter<W>) -> fmt::Result {
        match self {
            SessionLine::Wrote { s, id } => write!(f, "session {s} wrote {id}"),
            SessionLine::At { s, place } => write!(f, "session {s} at {place}"),
            SessionLine::Behind { s, have, want } => write!(f, "sweak {s} behind {have} {want}"),
            SessionLine::Answered { s, answer, at } => write!(f, "sweak {s} {answer} at {at}"),
        }
    }
}
