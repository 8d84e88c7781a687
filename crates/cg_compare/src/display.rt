//! How it is told what logs come to together.

ghost use Rattle.std.specs.Prelude.{Some};
ghost use Rattle.std.specs.Fmt.{WritesOnOk};
ghost use Rattle.cg_base.specs.Text.{with_commas};
ghost use Rattle.cg_compare.specs.JoinText.{covered_text, covered_list_text, line_and_id_text, joined_text};

use crate::Joined;
use cg_base::ActionId;
use std::fmt;
use std::fmt::{Display, Formatter, Write};

/// As `agree 2 [1:1,-]`, `differ 2 1 2:1 2 1:2` and `twice 1:1 1 3`.
impl Display for Joined {
    ghost output = { λ j. Some (joined_text j) };

    fn fmt<W: Write>(&self, f: &mut Formatter<W>) -> fmt::Result {
        match self {
            Joined::Agree { last, list } => {
                write!(f, "agree {last} ")?;
                write_list(f, list.as_slice())
            }
            Joined::Differ {
                place,
                line,
                id,
                other_line,
                other_id,
            } => {
                write!(f, "differ {place}")?;
                write_name(f, *line, id)?;
                write_name(f, *other_line, other_id)
            }
            Joined::Twice {
                id,
                place,
                other_place,
            } => write!(f, "twice {id} {place} {other_place}"),
        }
    }
}

// a name that a line has
fn write_name<W: Write>(f: &mut Formatter<W>, line: u64, id: &ActionId) -> fmt::Result
    ensures { WritesOnOk W.write_str_gives f.old result (line_and_id_text line id.now) f.new }
{
    write!(f, " {line} {id}")
}

fn write_list<W: Write>(f: &mut Formatter<W>, list: &[Option<ActionId>]) -> fmt::Result
    ensures { WritesOnOk W.write_str_gives f.old result (covered_list_text list.now) f.new }
{
    f.write_str("[")?;
    write_places(f, list)?;
    f.write_str("]")
}

fn write_places<W: Write>(f: &mut Formatter<W>, list: &[Option<ActionId>]) -> fmt::Result
    ensures { WritesOnOk W.write_str_gives f.old result (with_commas covered_text list.now) f.new }
{
    let Some((first, others)) = list.split_first() else {
        return Ok(());
    };
    write!(f, "{}", Covered(*first))?;
    for name in others {
        write!(f, ",{}", Covered(*name))?;
    }
    Ok(())
}

// a name, and a hyphen where none is known
#[derive(Clone, Copy)]
struct Covered(Option<ActionId>);

impl Display for Covered {
    ghost output = { λ covered. Some (covered_text covered.0) };

    fn fmt<W: Write>(&self, f: &mut Formatter<W>) -> fmt::Result {
        match &self.0 {
            None => f.write_str("-"),
            Some(id) => write!(f, "{id}"),
        }
    }
}
