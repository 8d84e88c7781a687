//! The lines that ask for the relaxed database, in a world: which are admitted, what they show, and what is kept for
//! them.
ghost use Rattle.std.specs.Prelude.{◌≡◌, [], ◌∷◌, fold, IfOk, OnOk};
ghost use Rattle.cg_base.specs.Lists.{first_some};
ghost use Rattle.cg_items.specs.Relaxing.{known_cut, relaxed_lines, relaxed_refusal, unknown_or_down, with_step};
ghost use Rattle.cg_model.specs.Run.{Step};
ghost use Rattle.cg_base.specs.Calls.{greatest_cut};
ghost use Rattle.cg_made_rows.specs.Rows.{cell_at};
ghost use Rattle.cg_made_rows.specs.declared.relaxed_line.RelaxedLine.TheVariants.{Both};
ghost use Rattle.cg_run.specs.Making.{with_made_in};

use cg_action::Action;
use cg_base::{Cut, NoMemory, ReplicaId, Row};
use cg_group::Reason;
use cg_made_rows::{MadeRows, RelaxedEvent, RelaxedLine};
use cg_report::{Entry, Made};
use cg_text::Txt;
use cg_world::World;
use std::alloc::Global;

/// The reason by which a line isn't admitted, if there is one. It takes no memory.
#[tactic(auto, unfolding(cg_items::specs::Relaxing::relaxed_refusal))]
pub fn relaxed_refusal(world: &World, event: &RelaxedEvent) -> Option<Reason>
    ensures { result ≡ relaxed_refusal world.now.world event.now }
{
    match event {
        RelaxedEvent::One { p, key: _ } => world.hidden(*p),
        RelaxedEvent::Both { p, q, key: _ } => hidden_of_two(world, *p, *q),
    }
}

fn hidden_of_two(world: &World, p: ReplicaId, q: ReplicaId) -> Option<Reason>
    ensures { result ≡ first_some (unknown_or_down world.now.world p ∷ unknown_or_down world.now.world q ∷ []) }
{
    match world.hidden(p) {
        Some(reason) => Some(reason),
        None => world.hidden(q),
    }
}

// how far the replica knows the actions of each creator
fn known_cut(world: &World, p: ReplicaId) -> Cut
    ensures { result ≡ known_cut world.now.world p }
{
    match world.core(p) {
        Some(core) => core.queue().red_cut(),
        None => Cut::zero(),
    }
}

/// What an admitted line shows.
#[tactic(auto, unfolding(cg_items::specs::Relaxing::relaxed_lines))]
pub fn relaxed_line(
    world: &World,
    rows: &mut MadeRows,
    event: &RelaxedEvent,
) -> Result<RelaxedLine, NoMemory>
    ensures line { IfOk result (λ line. line ∷ [] ≡ relaxed_lines world.now.world rows.old event.now) }
    ensures same { rows.new ≡ rows.old }
{
    match event {
        RelaxedEvent::One { p, key } => {
            let cut = known_cut(world, *p);
            let cell = rows.one(*p, &cut, key)?;
            Ok(RelaxedLine::One { p: *p, cell })
        }
        RelaxedEvent::Both { p, q, key } => {
            let line = line_of_two(world, rows, *p, *q, key)?;
            Ok(line)
        }
    }
}

fn line_of_two(
    world: &World,
    rows: &mut MadeRows,
    p: ReplicaId,
    q: ReplicaId,
    key: &Txt,
) -> Result<RelaxedLine, NoMemory>
    ensures line { IfOk result (λ line. line ≡ Both p q
        (cell_at rows.old (greatest_cut (known_cut world.now.world p) (known_cut world.now.world q)) key.now)) }
    ensures same { rows.new ≡ rows.old }
{
    let cut = known_cut(world, p);
    let other = known_cut(world, q);
    let cell = rows.both(p, &cut, q, &other, key)?;
    Ok(RelaxedLine::Both { p, q, cell })
}

/// What a step shows as made is kept. After want of memory the rows are of no more use.
pub fn with_step(
    alloc: Global,
    rows: &mut MadeRows,
    world: &World,
    entry: &Entry,
) -> Result<(), NoMemory>
    ensures { (step : Step) → step.entry ≡ entry.now → step.world ≡ world.now.world →
        OnOk result (rows.new ≡ with_step rows.old step) }
{
    add_all(alloc, rows, world, entry.made.as_slice())
}

fn add_all(alloc: Global, rows: &mut MadeRows, world: &World, made: &[Made]) -> Result<(), NoMemory>
    ensures { OnOk result (rows.new ≡ fold (with_made_in world.now.world) rows.old made.now) }
{
    for m in made {
        add(alloc, rows, world, m)?;
    }
    Ok(())
}

fn add(alloc: Global, rows: &mut MadeRows, world: &World, m: &Made) -> Result<(), NoMemory>
    ensures { OnOk result (rows.new ≡ with_made_in world.now.world rows.old m.now) }
{
    let kind = m.kind.copy(alloc)?;
    rows.add(Action {
        id: m.id,
        green_line: world.printed_position(m.id.creator),
        kind,
    })
}
