ghost use Rattle.std.specs.Prelude.{IfOk};
ghost use Rattle.cg_action.specs.ActionLimits.{IsAction};
ghost use Rattle.cg_base.specs.Lists.{Each};
ghost use Rattle.cg_store.specs.Due.{IsPrepared};

use crate::records::change_record;
use crate::values::is_due;
use cg_action::Action;
use cg_base::{Bytes, NoMemory, Row};
use cg_client::{Core, Draft};
use cg_records::Stable;
use std::alloc::Global;

/// The record of an event that is to be written, and the values in it.
#[derive(Drop)]
pub(crate) struct PendingRecord {
    pub(crate) body: Bytes,
    pub(crate) values: Stable,
}

/// The record of an event, where it is due, given the values that stand on the disk.
pub(crate) fn prepare(
    alloc: Global,
    values: &Stable,
    unwritten: &[Action],
    core: &Core,
    draft: &Draft,
) -> Result<Option<PendingRecord>, NoMemory>
    requires { Each IsAction unwritten.now }
    ensures { IfOk result (λ due. IsPrepared values.now unwritten.now core.now draft.now due) }
{
    let stable = core.stable()?;
    if !is_due(values, &stable, draft) {
        return Ok(None);
    }
    let body = change_record(alloc, &stable, unwritten, draft)?;
    Ok(Some(PendingRecord {
        body: Row::from_vec(body),
        values: stable,
    }))
}
