//! Lines of replicas.

ghost use Rattle.cg_base.specs.Lists.{Each};
ghost use Rattle.cg_short.specs.Short.{IsShort, IfAny, IsShortPhase, IsShortView, IsShortUp, IsShortLine};

use crate::names::{number_is_short, replica_is_short, runs_are_short, set_is_short};
use crate::records::{prim_is_short, vulnerable_is_short, yellow_is_short};
use cg_report::{Line, ShownPhase, UpLine, View};

fn phase_is_short(phase: ShownPhase)
    ensures { IsShortPhase phase }
{
    match phase {
        ShownPhase::Alone => {}
        ShownPhase::Regular(conf) => number_is_short(conf),
        ShownPhase::Transitional(conf) => number_is_short(conf),
    }
}

fn view_is_short(view: &View)
    ensures { IsShortView view.now }
{
    number_is_short(view.green_count);
    number_is_short(view.white_count);
    prim_is_short(view.prim);
    number_is_short(view.attempt_index);
    vulnerable_is_short(view.vulnerable);
    yellow_is_short(&view.yellow);
    runs_are_short(&view.reds);
    runs_are_short(&view.own);
    set_is_short(view.left);
    number_is_short(view.buffered);
}

fn up_is_short(up: &UpLine)
    ensures { IsShortUp up.now }
{
    phase_is_short(up.phase);
    view_is_short(&up.view);
}

fn maybe_up_is_short(up: &Option<UpLine>)
    ensures { IfAny IsShortUp up.now }
{
    match up {
        Some(up) => up_is_short(up),
        None => {}
    }
}

fn line_is_short(line: &Line)
    ensures { IsShortLine line.now }
{
    replica_is_short(line.id);
    maybe_up_is_short(&line.up);
}

pub fn lines_are_short(lines: &[Line])
    ensures { Each IsShortLine lines.now }
{
    for line in lines {
        line_is_short(line);
    }
}
