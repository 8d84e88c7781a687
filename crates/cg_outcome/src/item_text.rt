//! What an event shows: its step, and the further lines behind it.

ghost use Rattle.std.specs.Prelude.{◌≡◌, ◌++◌, Some, OnOk, codes, decimal};
ghost use Rattle.std.specs.List.{flat_map};
ghost use Rattle.std.specs.Fmt.{WritesOnOk};
ghost use Rattle.cg_report.specs.EntryText.{body_text};
ghost use Rattle.cg_items.specs.FurtherText.{further_text};
ghost use Rattle.cg_items.specs.Items.{item_text};

use cg_base::{NoMemory, put_shown};
use cg_items::FurtherLine;
use cg_report::{Entry, put_entry};
use std::fmt;
use std::fmt::{Display, Formatter, Write};

// an event with this number that shows further lines
#[derive(Clone, Copy)]
struct WithLines<'a> {
    number: u64,
    entry: &'a Entry,
    lines: &'a [FurtherLine],
}

impl Display for WithLines<'_> {
    ghost output = { λ i. Some (codes "= " ++ decimal i.number ++ codes "\n" ++ body_text i.entry.now
        ++ flat_map further_text i.lines.now) };

    fn fmt<W: Write>(&self, f: &mut Formatter<W>) -> fmt::Result {
        write!(f, "= {}\n{}", self.number, self.entry)?;
        write_lines(f, self.lines)
    }
}

fn write_lines<W: Write>(f: &mut Formatter<W>, lines: &[FurtherLine]) -> fmt::Result
    ensures { WritesOnOk W.write_str_gives f.old result (flat_map further_text lines.now) f.new }
{
    for line in lines {
        write_line(f, line)?;
    }
    Ok(())
}

// a line, with its end
fn write_line<W: Write>(f: &mut Formatter<W>, line: &FurtherLine) -> fmt::Result
    ensures { WritesOnOk W.write_str_gives f.old result (further_text line.now) f.new }
{
    match line {
        FurtherLine::Follow(line) => writeln!(f, "{line}"),
        FurtherLine::Relaxed(line) => writeln!(f, "{line}"),
        FurtherLine::Session(line) => writeln!(f, "{line}"),
    }
}

/// What an event puts of a whole report: nothing where it shows nothing, and else its number and what it shows.
pub(crate) fn put_item(
    out: &mut Vec<u8>,
    number: u64,
    entry: &Entry,
    lines: &[FurtherLine],
) -> Result<(), NoMemory>
    ensures { OnOk result (out.new.items ≡ out.old.items ++ item_text number entry.now lines.now) }
{
    match lines {
        [] => put_entry(out, number, entry),
        _ => put_shown(
            out,
            &WithLines {
                number,
                entry,
                lines,
            },
        ),
    }
}
