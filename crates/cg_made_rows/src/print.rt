//! Events that ask for the relaxed database, and lines that show it, as text.

ghost use Rattle.std.specs.Prelude.{Some};
ghost use Rattle.cg_made_rows.specs.Print.{cell_text, line_of, relaxed_text};

use crate::{RelaxedEvent, RelaxedLine};
use cg_relaxed::Cell;
use cg_text::Quoted;
use std::fmt;
use std::fmt::{Display, Formatter, Write};

/// Its line, without the line's end.
impl Display for RelaxedEvent {
    ghost output = { λ event. Some (line_of event) };

    fn fmt<W: Write>(&self, f: &mut Formatter<W>) -> fmt::Result {
        match self {
            RelaxedEvent::One { p, key } => write!(f, "relaxed {p} {}", Quoted(key)),
            RelaxedEvent::Both { p, q, key } => write!(f, "joined {p} {q} {}", Quoted(key)),
        }
    }
}

/// As it stands in a report, without the line's end.
impl Display for RelaxedLine {
    ghost output = { λ line. Some (relaxed_text line) };

    fn fmt<W: Write>(&self, f: &mut Formatter<W>) -> fmt::Result {
        match self {
            RelaxedLine::One { p, cell } => write!(f, "relaxed {p} {}", CellText(cell)),
            RelaxedLine::Both { p, q, cell } => write!(f, "joined {p} {q} {}", CellText(cell)),
        }
    }
}

// what stands at a key
#[derive(Clone, Copy)]
struct CellText<'a>(&'a Cell);

impl Display for CellText<'_> {
    ghost output = { λ cell. Some (cell_text cell.0.now) };

    fn fmt<W: Write>(&self, f: &mut Formatter<W>) -> fmt::Result {
        let cell = self.0;
        match &cell.value {
            None => write!(f, "absent {}", cell.sum),
            Some(value) => write!(f, "{value} {}", cell.sum),
        }
    }
}
