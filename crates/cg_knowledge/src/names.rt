ghost use Rattle.std.specs.Prelude.{◌≡◌, OnOk, filter};
ghost use Rattle.cg_base.specs.Ids.{has_name};

use cg_base::{ActionId, NoMemory};
use std::alloc::Global;
use std::collections::BTreeSet;

/// Keeps the names that stand in the other list too. A set of these is made only where there is something to look for.
pub(crate) fn keep_shared(
    alloc: Global,
    names: &mut Vec<ActionId>,
    other: &[ActionId],
) -> Result<(), NoMemory>
    ensures { OnOk result (names.new.items ≡ filter (has_name other.now) names.old.items) }
{
    if names.is_empty() {
        return Ok(());
    }
    let known: BTreeSet<ActionId> = other.iter().copied().collect(alloc)?;
    names.retain(|id| known.contains(id));
    Ok(())
}
