//! What was asked to be shown.

ghost use Rattle.std.specs.Prelude.{Some};
ghost use Rattle.std.specs.List.{flat_map};
ghost use Rattle.std.specs.Fmt.{WritesOnOk};
ghost use Rattle.cg_report.specs.EntryText.{next_entry_text, shown_text};

use crate::Shown;
use cg_action::DbEntry;
use std::fmt;
use std::fmt::{Display, Formatter, Write};

impl Display for Shown {
    ghost output = { λ shown. Some (shown_text shown) };

    fn fmt<W: Write>(&self, f: &mut Formatter<W>) -> fmt::Result {
        match self {
            Shown::Weak { p, answer } => write!(f, "weak {p} {answer}"),
            Shown::Dirty { p, answer } => write!(f, "dirty {p} {answer}"),
            Shown::Pieces { joiner, taken, all } => write!(f, "pieces {joiner} {taken}/{all}"),
            Shown::Greens { p, list } => write!(f, "greens {p} {list}"),
            Shown::Database { p, entries } => {
                write!(f, "db {p}")?;
                write_entries(f, entries.as_slice())
            }
            Shown::All(list) => write!(f, "all {list}"),
        }
    }
}

fn write_entries<W: Write>(f: &mut Formatter<W>, entries: &[DbEntry]) -> fmt::Result
    ensures { WritesOnOk W.write_str_gives f.old result (flat_map next_entry_text entries.now) f.new }
{
    for entry in entries {
        write!(f, " {entry}")?;
    }
    Ok(())
}
