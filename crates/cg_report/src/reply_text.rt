//! What was made and placed, and what clients are told.

ghost use Rattle.std.specs.Prelude.{Some};
ghost use Rattle.cg_report.specs.EntryText.{made_text, order_text, reply_text};

use crate::{Made, Placed, Reply};
use std::fmt;
use std::fmt::{Display, Formatter, Write};

impl Display for Made {
    ghost output = { λ made. Some (made_text made) };

    fn fmt<W: Write>(&self, f: &mut Formatter<W>) -> fmt::Result {
        write!(f, "made {} {}", self.id, self.kind.get())
    }
}

impl Display for Placed {
    ghost output = { λ placed. Some (order_text placed) };

    fn fmt<W: Write>(&self, f: &mut Formatter<W>) -> fmt::Result {
        write!(f, "order {} {}", self.place, self.id)
    }
}

impl Display for Reply {
    ghost output = { λ reply. Some (reply_text reply) };

    fn fmt<W: Write>(&self, f: &mut Formatter<W>) -> fmt::Result {
        match &self.answer {
            None => write!(f, "reply {} {}", self.id, self.effect),
            Some(answer) => write!(f, "reply {} {} ? {answer}", self.id, self.effect),
        }
    }
}
