//! What logs come to together.

ghost use Rattle.std.specs.Prelude.{◌≡◌, IfOk};
ghost use Rattle.cg_compare.specs.Join.{join_logs as joined};
ghost use Rattle.cg_compare.specs.Orders.{IsTold};

use crate::seen::{covered, difference, placed_names, repeat};
use crate::{Joined, LogList};
use cg_base::NoMemory;
use std::alloc::Global;

/// What the logs come to together. The work is that of sorting their names: holes cost nothing, but in the list of logs
/// that agree each place up to the last one has an entry. `NoMemory` comes also where that list or a place is too large
/// for 64 bits.
pub fn join_logs(alloc: Global, logs: &LogList) -> Result<Joined, NoMemory>
    ensures value { IfOk result (λ j. j ≡ joined logs.now) }
    ensures told { IfOk result (λ j. IsTold logs.now j) }
{
    let names = placed_names(alloc, logs.as_slice())?;
    let names = names.as_slice();
    if let Some(found) = difference(names) {
        return Ok(found);
    }
    if let Some(found) = repeat(alloc, names)? {
        return Ok(found);
    }
    let list = covered(alloc, names)?;
    Ok(Joined::Agree {
        last: list.len() as u64,
        list,
    })
}
