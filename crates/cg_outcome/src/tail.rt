ghost use Rattle.std.specs.Prelude.{◌≡◌, ◌++◌, [], OnOk, codes, decimal};
ghost use Rattle.std.specs.Option.{option_map_or};
ghost use Rattle.cg_json.specs.JsonText.{tail_json};
ghost use Rattle.cg_outcome.specs.Status.{limit_text, refused_text, tail_line};
ghost use Rattle.cg_outcome.specs.Produced.{tail_in};

use crate::status::{Limit, Status};
use cg_base::{NoMemory, put, put_number};
use cg_group::Reason;
use cg_items::Report;
use cg_json::json_tail;

fn put_limit(out: &mut Vec<u8>, what: Limit) -> Result<(), NoMemory>
    ensures { OnOk result (out.new.items ≡ out.old.items ++ limit_text what) }
{
    match what {
        Limit::Line => put(out, b"line"),
        Limit::Input => put(out, b"input"),
        Limit::Lines => put(out, b"lines"),
        Limit::Steps => put(out, b"steps"),
    }
}

fn put_value(out: &mut Vec<u8>, value: Option<u64>) -> Result<(), NoMemory>
    ensures { OnOk result (out.new.items ≡ out.old.items ++ option_map_or (λ n. codes " " ++ decimal n) value []) }
{
    match value {
        None => Ok(()),
        Some(number) => put_numbered(out, b" ", number),
    }
}

fn put_reason(out: &mut Vec<u8>, reason: &Reason) -> Result<(), NoMemory>
    ensures { OnOk result (out.new.items ≡ out.old.items ++ refused_text reason.now) }
{
    put_numbered(out, b" ", u64::from(reason.number()))?;
    put_value(out, reason.value())
}

// a word, and a number behind it
fn put_numbered(out: &mut Vec<u8>, word: &[u8], number: u64) -> Result<(), NoMemory>
    ensures { OnOk result (out.new.items ≡ out.old.items ++ (word.now ++ decimal number)) }
{
    put(out, word)?;
    put_number(out, number)
}

fn put_tail_line(out: &mut Vec<u8>, status: &Status, steps: u64, lines: u64) -> Result<(), NoMemory>
    ensures { OnOk result (out.new.items ≡ out.old.items ++ tail_line status.now steps lines) }
{
    match status {
        Status::Done => put_numbered(out, b"end ", steps),
        Status::Usage => {
            put(
                out,
                b"usage: congruity replay | check | generate SEED REPLICAS LINES | trial SEED REPLICAS LINES",
            )?;
            put(
                out,
                b" | follow | relaxed | sessions | compare | image P | inspect | json",
            )
        }
        Status::Syntax { line, reason } => {
            put_numbered(out, b"syntax ", *line)?;
            put_numbered(out, b" ", u64::from(*reason))
        }
        Status::Refused { line, reason } => {
            put_numbered(out, b"refused ", *line)?;
            put_reason(out, reason)
        }
        Status::ReadFault => put_numbered(out, b"read fault ", lines),
        Status::Limit { line, what } => {
            put_numbered(out, b"limit ", *line)?;
            put(out, b" ")?;
            put_limit(out, *what)
        }
        Status::NoEnd { lines: all } => put_numbered(out, b"no end ", *all),
        Status::NotAnImage => put(out, b"not an image"),
        Status::NotAStore => put(out, b"not a store"),
        Status::WriteFault | Status::NoMemory => Ok(()),
    }
}

/// The last line of the report, as a line of its own.
pub fn put_tail(
    out: &mut Vec<u8>,
    report: Report,
    status: &Status,
    steps: u64,
    lines: u64,
) -> Result<(), NoMemory>
    ensures { OnOk result (out.new.items ≡ out.old.items ++ tail_in report status.now steps lines) }
{
    match report {
        Report::Json => put_json_tail(out, status, steps, lines),
        _ => {
            put_tail_line(out, status, steps, lines)?;
            put(out, b"\n")
        }
    }
}

// Each tail is a text, so that memory is never refused for want of one.
fn put_json_tail(out: &mut Vec<u8>, status: &Status, steps: u64, lines: u64) -> Result<(), NoMemory>
    ensures { OnOk result (out.new.items ≡ out.old.items ++ tail_json (tail_line status.now steps lines)) }
{
    let mut line = Vec::new(*out.allocator());
    put_tail_line(&mut line, status, steps, lines)?;
    match str::from_utf8(line.as_slice()) {
        Ok(text) => json_tail(text, out),
        Err(_) => Err(NoMemory),
    }
}
