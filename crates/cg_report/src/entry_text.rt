//! All that a step shows.

ghost use Rattle.std.specs.Prelude.{◌≡◌, ◌++◌, Some, OnOk, OnErr, codes, decimal};
ghost use Rattle.std.specs.List.{flat_map};
ghost use Rattle.std.specs.Fmt.{WritesOnOk};
ghost use Rattle.cg_base.specs.Fronts.{KeepsFront};
ghost use Rattle.cg_report.specs.EntryText.{made_line, order_line, ended_line, reply_line, shown_line, body_text, entry_text};

use crate::page::{HasFront, Page};
use crate::putting_entry::put_numbered;
use crate::{Entry, Line, Made, Placed, Reply, Shown};
use cg_base::NoMemory;
use std::fmt;
use std::fmt::{Display, Formatter, Write};
use std::marker::Brand;
use std::mem::replace;

/// All of it, each part with its line's end.
impl Display for Entry {
    ghost output = { λ entry. Some (body_text entry) };

    fn fmt<W: Write>(&self, f: &mut Formatter<W>) -> fmt::Result {
        write_made(f, self.made.as_slice())?;
        write_orders(f, self.orders.as_slice())?;
        write_lines(f, self.lines.as_slice())?;
        write_replies(f, self.replies.as_slice())?;
        write_shown(f, self.shown.as_slice())
    }
}

fn write_made<W: Write>(f: &mut Formatter<W>, made: &[Made]) -> fmt::Result
    ensures { WritesOnOk W.write_str_gives f.old result (flat_map made_line made.now) f.new }
{
    for one in made {
        writeln!(f, "{one}")?;
    }
    Ok(())
}

fn write_orders<W: Write>(f: &mut Formatter<W>, orders: &[Placed]) -> fmt::Result
    ensures { WritesOnOk W.write_str_gives f.old result (flat_map order_line orders.now) f.new }
{
    for one in orders {
        writeln!(f, "{one}")?;
    }
    Ok(())
}

fn write_lines<W: Write>(f: &mut Formatter<W>, lines: &[Line]) -> fmt::Result
    ensures { WritesOnOk W.write_str_gives f.old result (flat_map ended_line lines.now) f.new }
{
    for one in lines {
        writeln!(f, "{one}")?;
    }
    Ok(())
}

fn write_replies<W: Write>(f: &mut Formatter<W>, replies: &[Reply]) -> fmt::Result
    ensures { WritesOnOk W.write_str_gives f.old result (flat_map reply_line replies.now) f.new }
{
    for one in replies {
        writeln!(f, "{one}")?;
    }
    Ok(())
}

fn write_shown<W: Write>(f: &mut Formatter<W>, shown: &[Shown]) -> fmt::Result
    ensures { WritesOnOk W.write_str_gives f.old result (flat_map shown_line shown.now) f.new }
{
    for one in shown {
        writeln!(f, "{one}")?;
    }
    Ok(())
}

/// What a step puts: nothing where it shows nothing, and else its number and what it shows. Where memory is refused nothing is
/// put.
pub fn put_entry(out: &mut Vec<u8>, step: u64, entry: &Entry) -> Result<(), NoMemory>
    ensures ok { OnOk result (out.new.items ≡ out.old.items ++ entry_text step entry.now) }
    ensures err { OnErr result (out.new.items ≡ out.old.items) }
{
    if entry.is_silent() {
        return Ok(());
    }
    let count = out.len();
    let none = Vec::new(*out.allocator());
    let (bytes, result) = numbered_behind::<Brand>(replace(out, none), step, entry);
    *out = bytes;
    if result.is_err() {
        out.truncate(count);
    }
    result
}

fn numbered_behind<F: HasFront>(
    bytes: Vec<u8>,
    step: u64,
    entry: &Entry,
) -> (Vec<u8>, Result<(), NoMemory>)
    requires { bytes.items ≡ F.front }
    ensures ok { OnOk result.1 (result.0.items ≡ bytes.items ++ (codes "= " ++ decimal step ++ codes "\n" ++ body_text entry.now)) }
    ensures front { KeepsFront bytes.items result.0.items }
{
    let mut page: Page<F> = Page::behind(bytes);
    let result = put_numbered(&mut page, step, entry);
    (page.into_bytes(), result)
}
