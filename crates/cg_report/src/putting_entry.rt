//! What a step shows, put piece by piece.

ghost use Rattle.std.specs.Prelude.{◌≡◌, ◌++◌, OnOk, codes, decimal};
ghost use Rattle.std.specs.List.{flat_map};
ghost use Rattle.cg_report.specs.EntryText.{effect_text, answered_text, made_line, order_line, ended_line, reply_line, shown_line, body_text};

use crate::page::{HasFront, Page};
use crate::plain_text::put_name;
use crate::putting_line::put_line_text;
use crate::{Entry, Line, Made, Placed, Reply, Shown};
use cg_action::{Answer, Effect};
use cg_base::NoMemory;

fn put_made<F: HasFront>(out: &mut Page<F>, made: &Made) -> Result<(), NoMemory>
    ensures { OnOk result (out.new ≡ out.old ++ made_line made.now) }
{
    out.put(b"made ")?;
    put_name(out, &made.id)?;
    out.put_byte(b' ')?;
    out.put_shown(made.kind.get())?;
    out.put_byte(b'\n')
}

fn put_order<F: HasFront>(out: &mut Page<F>, placed: &Placed) -> Result<(), NoMemory>
    ensures { OnOk result (out.new ≡ out.old ++ order_line placed.now) }
{
    out.put(b"order ")?;
    out.put_number(placed.place)?;
    out.put_byte(b' ')?;
    put_name(out, &placed.id)?;
    out.put_byte(b'\n')
}

fn put_ended_line<F: HasFront>(out: &mut Page<F>, line: &Line) -> Result<(), NoMemory>
    ensures { OnOk result (out.new ≡ out.old ++ ended_line line.now) }
{
    put_line_text(out, line)?;
    out.put_byte(b'\n')
}

fn put_effect<F: HasFront>(out: &mut Page<F>, effect: Effect) -> Result<(), NoMemory>
    ensures { OnOk result (out.new ≡ out.old ++ effect_text effect) }
{
    match effect {
        Effect::Done => out.put(b"done"),
        Effect::Aborted(number) => {
            out.put(b"aborted ")?;
            out.put_number(u64::from(number))
        }
        Effect::Range(number) => {
            out.put(b"range ")?;
            out.put_number(u64::from(number))
        }
    }
}

fn put_answered<F: HasFront>(out: &mut Page<F>, answer: &Option<Answer>) -> Result<(), NoMemory>
    ensures { OnOk result (out.new ≡ out.old ++ answered_text answer.now) }
{
    let Some(answer) = answer else {
        return Ok(());
    };
    out.put(b" ? ")?;
    out.put_shown(answer)
}

fn put_reply<F: HasFront>(out: &mut Page<F>, reply: &Reply) -> Result<(), NoMemory>
    ensures { OnOk result (out.new ≡ out.old ++ reply_line reply.now) }
{
    out.put(b"reply ")?;
    put_name(out, &reply.id)?;
    out.put_byte(b' ')?;
    put_effect(out, reply.effect)?;
    put_answered(out, &reply.answer)?;
    out.put_byte(b'\n')
}

fn put_each_made<F: HasFront>(out: &mut Page<F>, made: &[Made]) -> Result<(), NoMemory>
    ensures { OnOk result (out.new ≡ out.old ++ flat_map made_line made.now) }
{
    for one in made {
        put_made(out, one)?;
    }
    Ok(())
}

fn put_orders<F: HasFront>(out: &mut Page<F>, orders: &[Placed]) -> Result<(), NoMemory>
    ensures { OnOk result (out.new ≡ out.old ++ flat_map order_line orders.now) }
{
    for one in orders {
        put_order(out, one)?;
    }
    Ok(())
}

fn put_lines<F: HasFront>(out: &mut Page<F>, lines: &[Line]) -> Result<(), NoMemory>
    ensures { OnOk result (out.new ≡ out.old ++ flat_map ended_line lines.now) }
{
    for one in lines {
        put_ended_line(out, one)?;
    }
    Ok(())
}

fn put_replies<F: HasFront>(out: &mut Page<F>, replies: &[Reply]) -> Result<(), NoMemory>
    ensures { OnOk result (out.new ≡ out.old ++ flat_map reply_line replies.now) }
{
    for one in replies {
        put_reply(out, one)?;
    }
    Ok(())
}

fn put_each_shown<F: HasFront>(out: &mut Page<F>, shown: &[Shown]) -> Result<(), NoMemory>
    ensures { OnOk result (out.new ≡ out.old ++ flat_map shown_line shown.now) }
{
    for one in shown {
        out.put_shown(one)?;
        out.put_byte(b'\n')?;
    }
    Ok(())
}

fn put_body<F: HasFront>(out: &mut Page<F>, entry: &Entry) -> Result<(), NoMemory>
    ensures { OnOk result (out.new ≡ out.old ++ body_text entry.now) }
{
    put_each_made(out, entry.made.as_slice())?;
    put_orders(out, entry.orders.as_slice())?;
    put_lines(out, entry.lines.as_slice())?;
    put_replies(out, entry.replies.as_slice())?;
    put_each_shown(out, entry.shown.as_slice())
}

/// The number of a step, and all that it shows.
pub(crate) fn put_numbered<F: HasFront>(
    out: &mut Page<F>,
    step: u64,
    entry: &Entry,
) -> Result<(), NoMemory>
    ensures { OnOk result (out.new ≡ out.old ++ (codes "= " ++ decimal step ++ codes "\n" ++ body_text entry.now)) }
{
    out.put(b"= ")?;
    out.put_number(step)?;
    out.put_byte(b'\n')?;
    put_body(out, entry)
}
