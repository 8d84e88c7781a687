//! Events of sessions as the lines that spell them.

ghost use Rattle.std.specs.Prelude.{Some};
ghost use Rattle.cg_session.specs.Print.{line_of};

use crate::SessionEvent;
use cg_action::Update;
use std::fmt;
use std::fmt::{Display, Formatter, Write};

/// Its line, without the line's end.
impl Display for SessionEvent {
    ghost output = { λ event. Some (line_of event) };

    fn fmt<W: Write>(&self, f: &mut Formatter<W>) -> fmt::Result {
        match self {
            SessionEvent::Begin(s) => write!(f, "session {s}"),
            SessionEvent::Write { s, p, cmds, query } => {
                let cmds = cmds.as_slice();
                write!(f, "swrite {s} {p} {}", Update { cmds, query })
            }
            SessionEvent::Weak { s, p, query } => write!(f, "sweak {s} {p} {query}"),
        }
    }
}
