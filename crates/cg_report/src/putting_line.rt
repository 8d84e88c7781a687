//! The line of a replica, put piece by piece.

ghost use Rattle.std.specs.Prelude.{◌≡◌, ◌++◌, OnOk};
ghost use Rattle.cg_report.specs.LineText.{state_text, phase_text, prim_text, vulnerable_text, yellow_text, counts_text, components_text, actions_text, view_text, up_text, line_text};

use crate::page::{HasFront, Page};
use crate::plain_text::{put_names, put_replica, put_runs, put_set, put_weights};
use crate::{Line, ShownPhase, StateName, UpLine, View};
use cg_base::NoMemory;
use cg_records::{Primary, Vulnerable, Yellow};

fn put_state<F: HasFront>(out: &mut Page<F>, state: StateName) -> Result<(), NoMemory>
    ensures { OnOk result (out.new ≡ out.old ++ state_text state) }
{
    match state {
        StateName::RegPrim => out.put(b"RegPrim"),
        StateName::TransPrim => out.put(b"TransPrim"),
        StateName::ExchangeStates => out.put(b"ExchangeStates"),
        StateName::ExchangeActions => out.put(b"ExchangeActions"),
        StateName::Construct => out.put(b"Construct"),
        StateName::No => out.put(b"No"),
        StateName::Un => out.put(b"Un"),
        StateName::NonPrim => out.put(b"NonPrim"),
        StateName::Left => out.put(b"Left"),
    }
}

fn put_phase<F: HasFront>(out: &mut Page<F>, phase: ShownPhase) -> Result<(), NoMemory>
    ensures { OnOk result (out.new ≡ out.old ++ phase_text phase) }
{
    match phase {
        ShownPhase::Alone => out.put_byte(b'-'),
        ShownPhase::Regular(conf) => {
            out.put_byte(b'c')?;
            out.put_number(conf)
        }
        ShownPhase::Transitional(conf) => {
            out.put_byte(b't')?;
            out.put_number(conf)
        }
    }
}

fn put_prim<F: HasFront>(out: &mut Page<F>, last: &Primary) -> Result<(), NoMemory>
    ensures { OnOk result (out.new ≡ out.old ++ prim_text last.now) }
{
    out.put_byte(b'p')?;
    out.put_number(last.index)?;
    out.put_byte(b'@')?;
    out.put_number(last.conf)?;
    put_weights(out, &last.set)
}

fn put_vulnerable<F: HasFront>(
    out: &mut Page<F>,
    attempt: &Option<Vulnerable>,
) -> Result<(), NoMemory>
    ensures { OnOk result (out.new ≡ out.old ++ vulnerable_text attempt.now) }
{
    let Some(v) = attempt else {
        return out.put(b"v-");
    };
    out.put_byte(b'v')?;
    out.put_number(v.attempt)?;
    out.put_byte(b'/')?;
    out.put_number(v.from)?;
    put_set(out, &v.set)?;
    put_set(out, &v.bits)
}

fn put_yellow<F: HasFront>(out: &mut Page<F>, yellow: &Yellow) -> Result<(), NoMemory>
    ensures { OnOk result (out.new ≡ out.old ++ yellow_text yellow.now) }
{
    let list = yellow.list.as_slice();
    if yellow.valid {
        out.put(b"y!")?;
        return put_names(out, list);
    }
    if list.is_empty() {
        return out.put(b"y-");
    }
    out.put(b"y?")?;
    put_names(out, list)
}

fn put_counts<F: HasFront>(out: &mut Page<F>, view: &View) -> Result<(), NoMemory>
    ensures { OnOk result (out.new ≡ out.old ++ counts_text view.now) }
{
    out.put_byte(b'g')?;
    out.put_number(view.green_count)?;
    out.put(b" w")?;
    out.put_number(view.white_count)
}

fn put_components<F: HasFront>(out: &mut Page<F>, view: &View) -> Result<(), NoMemory>
    ensures { OnOk result (out.new ≡ out.old ++ components_text view.now) }
{
    out.put_byte(b' ')?;
    put_prim(out, &view.prim)?;
    out.put(b" a")?;
    out.put_number(view.attempt_index)?;
    out.put_byte(b' ')?;
    put_vulnerable(out, &view.vulnerable)
}

fn put_actions<F: HasFront>(out: &mut Page<F>, view: &View) -> Result<(), NoMemory>
    ensures { OnOk result (out.new ≡ out.old ++ actions_text view.now) }
{
    out.put_byte(b' ')?;
    put_yellow(out, &view.yellow)?;
    out.put(b" r")?;
    put_runs(out, &view.reds)?;
    out.put(b" o")?;
    put_runs(out, &view.own)
}

fn put_view<F: HasFront>(out: &mut Page<F>, view: &View) -> Result<(), NoMemory>
    ensures { OnOk result (out.new ≡ out.old ++ view_text view.now) }
{
    put_counts(out, view)?;
    put_components(out, view)?;
    put_actions(out, view)?;
    out.put(b" x")?;
    put_set(out, &view.left)?;
    out.put(b" b")?;
    out.put_number(view.buffered)
}

fn put_up<F: HasFront>(out: &mut Page<F>, up: &Option<UpLine>) -> Result<(), NoMemory>
    ensures { OnOk result (out.new ≡ out.old ++ up_text up.now) }
{
    let Some(up) = up else {
        return out.put(b"Down");
    };
    put_state(out, up.state)?;
    out.put_byte(b' ')?;
    put_phase(out, up.phase)?;
    out.put_byte(b' ')?;
    put_view(out, &up.view)
}

/// The line, without its end.
pub(crate) fn put_line_text<F: HasFront>(out: &mut Page<F>, line: &Line) -> Result<(), NoMemory>
    ensures { OnOk result (out.new ≡ out.old ++ line_text line.now) }
{
    put_replica(out, line.id)?;
    out.put_byte(b' ')?;
    put_up(out, &line.up)
}
