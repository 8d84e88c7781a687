//! Rows of made actions.

ghost use Rattle.std.specs.Prelude.{◌≡◌, ◌<◌, ◌^◌, suc, true, List, length, take, vec_len, OnOk, OnErr};
ghost use Rattle.cg_base.specs.Lists.{row_at};
ghost use Rattle.cg_action.specs.ActionLimits.{IsAction};
ghost use Rattle.cg_made_rows.specs.Grown.{IsGrown};
ghost use Rattle.cg_made_rows.specs.Rows.{with_made};

use crate::limits::is_action;
use cg_action::{Action, ActionList};
use cg_base::{NoMemory, ReplicaId, Row};
use std::alloc::Global;

/// No action that is read in the relaxed database has so great an index.
const INDEX_LIMIT: u64 = 1 << 40;

/// The actions of a creator.
pub(crate) fn row_of(rows: &[ActionList], p: ReplicaId) -> &[Action]
    ensures { result.now ≡ row_at rows.now p }
{
    match rows.get(usize::from(p.get())) {
        Some(row) => row.as_slice(),
        None => &[],
    }
}

/// The action is the next one of its creator, and lies within the limits of actions and of those that are read.
pub(crate) fn is_next(rows: &[ActionList], action: &Action) -> bool
    ensures next { result ≡ true → action.now.id.index ≡ suc (length (row_at rows.now action.now.id.creator)) }
    ensures small { result ≡ true → action.now.id.index < 2 ^ 40 }
    ensures action { result ≡ true → IsAction action.now }
{
    let index = action.id.index;
    let made = row_of(rows, action.id.creator).len() as u64;
    is_action(action) && 0 < index && index < INDEX_LIMIT && made == index - 1
}

/// Puts an action behind the others of its creator's row. Where memory is refused nothing is changed.
pub(crate) fn append(
    alloc: Global,
    rows: &mut Vec<ActionList>,
    action: Action,
) -> Result<(), NoMemory>
    ensures ok { OnOk result (rows.new.items ≡ with_made rows.old.items action.id.creator action) }
    ensures err { OnErr result (rows.new.items ≡ rows.old.items) }
{
    let len = rows.len();
    let Ok(()) = put(alloc, rows, action) else {
        rows.truncate(len);
        return Err(NoMemory);
    };
    Ok(())
}

// where memory is refused there may be empty rows behind the others
fn put(alloc: Global, rows: &mut Vec<ActionList>, action: Action) -> Result<(), NoMemory>
    ensures ok { OnOk result (rows.new.items ≡ with_made rows.old.items action.id.creator action) }
    ensures err { OnErr result (take (length rows.old.items) rows.new.items ≡ rows.old.items) }
{
    let slot = usize::from(action.id.creator.get());
    grow(alloc, rows, slot)?;
    rows[slot].push(action)?;
    Ok(())
}

// rows up to this slot; those that weren't there are empty
fn grow(alloc: Global, rows: &mut Vec<ActionList>, slot: usize) -> Result<(), NoMemory>
    ensures grown { IsGrown rows.old.items rows.new.items slot }
    ensures ok { OnOk result (slot < vec_len rows.new) }
{
    while rows.len() <= slot {
        rows.push(Row::new(alloc))?;
    }
    Ok(())
}
