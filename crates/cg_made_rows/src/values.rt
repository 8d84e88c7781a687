//! Values of the relaxed database, each kept for a replica.

ghost use Rattle.std.specs.Prelude.{◌≡◌, not, List, IfOk};
ghost use Rattle.std.specs.Cmp.Lexicographic.{pointwise};
ghost use Rattle.cg_base.specs.Calls.{greatest_cut};
ghost use Rattle.cg_base.specs.Ids.{same_id};
ghost use Rattle.cg_action.specs.declared.action.Action.{Action as ActionOf};
ghost use Rattle.cg_made_rows.specs.Kept.{AreKept, ArePlaced, IsFrom};
ghost use Rattle.cg_made_rows.specs.Rows.{cell_at};

use crate::rows::row_of;
use cg_action::ActionList;
use cg_base::{ActionId, Cut, NoMemory, ReplicaId};
use cg_relaxed::{Cell, Relaxed, relaxed_values_agree};
use cg_text::Txt;
use std::alloc::Global;

/// Brings the value of a replica to a cut: what the cut has more is added, and where the cut fell the value is made
/// anew.
pub(crate) fn bring(
    alloc: Global,
    rows: &[ActionList],
    values: &mut Vec<Relaxed>,
    p: ReplicaId,
    cut: &Cut,
) -> Result<(), NoMemory>
    requires { AreKept rows.now values.old.items }
    ensures { AreKept rows.now values.new.items }
{
    let slot = usize::from(p.get());
    relaxed_values_agree();
    // a value that wasn't there knows nothing
    while values.len() <= slot {
        values.push(Relaxed::new(alloc))?;
    }
    bring_one(alloc, rows, &mut values[slot], cut)
}

fn bring_one(
    alloc: Global,
    rows: &[ActionList],
    value: &mut Relaxed,
    cut: &Cut,
) -> Result<(), NoMemory>
    requires placed { ArePlaced rows.now }
    requires from { IsFrom rows.now value.old }
    ensures { IsFrom rows.now value.new }
{
    if has_fallen(&value.known(), cut) {
        relaxed_values_agree();
        *value = Relaxed::new(alloc);
    }
    for top in cut.iter() {
        follow(rows, value, &top)?;
    }
    Ok(())
}

// the cut isn't what was known, with more or nothing more
fn has_fallen(known: &Cut, cut: &Cut) -> bool
    ensures { result ≡ not (pointwise same_id (greatest_cut known.now cut.now) cut.now) }
{
    known.greatest(cut) != *cut
}

// takes the actions of one creator in, up to its last one in a cut
fn follow(rows: &[ActionList], value: &mut Relaxed, top: &ActionId) -> Result<(), NoMemory>
    requires placed { ArePlaced rows.now }
    requires from { IsFrom rows.now value.old }
    ensures { IsFrom rows.now value.new }
{
    let known = value.known();
    'actions: for _ in known.get(top.creator)..top.index {
        take_next(rows, value, top.creator)?;
    }
    Ok(())
}

// takes the next action of a creator in
fn take_next(rows: &[ActionList], value: &mut Relaxed, p: ReplicaId) -> Result<(), NoMemory>
    requires placed { ArePlaced rows.now }
    requires from { IsFrom rows.now value.old }
    ensures { IsFrom rows.now value.new }
{
    relaxed_values_agree();
    let known = value.known();
    let Some(action) = row_of(rows, p).get(known.get(p) as usize) else {
        return Err(NoMemory);
    };
    value.add(action)?;
    Ok(())
}

/// What stands at a key in the value of a replica that was brought to the cut.
pub(crate) fn cell_of_one(
    values: &[Relaxed],
    p: ReplicaId,
    cut: &Cut,
    key: &Txt,
) -> Result<Cell, NoMemory>
    ensures { (rows : List (List ActionOf)) → AreKept rows values.now →
        IfOk result (λ cell. cell ≡ cell_at rows cut.now key.now) }
{
    relaxed_values_agree();
    let value = value_at(values, p, cut)?;
    value.read(key)
}

/// What stands at a key in what two replicas know together that were brought to the cuts.
pub(crate) fn cell_of_both(
    values: &[Relaxed],
    p: ReplicaId,
    cut: &Cut,
    q: ReplicaId,
    other: &Cut,
    key: &Txt,
) -> Result<Cell, NoMemory>
    ensures { (rows : List (List ActionOf)) → AreKept rows values.now →
        IfOk result (λ cell. cell ≡ cell_at rows (greatest_cut cut.now other.now) key.now) }
{
    relaxed_values_agree();
    let one = value_at(values, p, cut)?;
    let two = value_at(values, q, other)?;
    one.read_joined(two, key)
}

// the value of a replica, which knows what the cut names
fn value_at<'a>(values: &'a [Relaxed], p: ReplicaId, cut: &Cut) -> Result<&'a Relaxed, NoMemory>
    ensures from { (rows : List (List ActionOf)) → AreKept rows values.now →
        IfOk result (λ value. IsFrom rows value.now) }
    ensures known { IfOk result (λ value. value.now.known ≡ cut.now) }
{
    let Some(value) = values.get(usize::from(p.get())) else {
        return Err(NoMemory);
    };
    if value.known() != *cut {
        return Err(NoMemory);
    }
    Ok(value)
}
