//! The lines of an entry, as values of JSON.

ghost use Rattle.std.specs.Prelude.{◌≡◌, map, IfOk, OnOk};
ghost use Rattle.serde_json.specs.Data.{string};
ghost use Rattle.serde_json.specs.View.{view};
ghost use Rattle.cg_json.specs.JsonText.{lines_of};
ghost use Rattle.cg_json.specs.Lines.{AppendsLines};

use cg_base::NoMemory;
use cg_report::Entry;
use serde_json::Value;
use std::alloc::Global;
use std::fmt::Display;

/// The lines of an entry, part by part, without their ends.
pub fn lines_of(alloc: Global, entry: &Entry) -> Result<Vec<Value>, NoMemory>
    ensures { IfOk result (λ lines. map view lines.items ≡ map string (lines_of entry.now)) }
{
    let mut lines = Vec::new(alloc);
    push_lines(&mut lines, entry.made.as_slice())?;
    push_lines(&mut lines, entry.orders.as_slice())?;
    push_lines(&mut lines, entry.lines.as_slice())?;
    push_lines(&mut lines, entry.replies.as_slice())?;
    push_lines(&mut lines, entry.shown.as_slice())?;
    Ok(lines)
}

// what `{}` shows of each
fn push_lines<D: Display>(lines: &mut Vec<Value>, shown: &[D]) -> Result<(), NoMemory>
    ensures { OnOk result (AppendsLines D.output (map view lines.old.items) shown.now (map view lines.new.items)) }
{
    for one in shown {
        let line = one.to_string(*lines.allocator())?;
        lines.push(Value::String(line))?;
    }
    Ok(())
}
