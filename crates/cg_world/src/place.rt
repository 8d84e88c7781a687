//! The place of a name in the global order.
ghost use Rattle.std.specs.Prelude.{◌≡◌, [], true, IfSome};
ghost use Rattle.cg_disk_records.specs.Holds.{run_on};
ghost use Rattle.cg_model.specs.Places.{place_of};

use cg_base::ActionId;

/// The place of a name, counted from 1, where it stands among the first so many. It is looked for from their end: who asks
/// mostly asks for a late one.
pub(crate) fn last_place(order: &[ActionId], count: usize, id: &ActionId) -> Option<u64>
    requires { run_on [] order.now ≡ true }
    ensures { IfSome result (λ n. n ≡ place_of order.now id.now) }
{
    let mut left = order.len().min(count);
    while left > 0 {
        left -= 1;
        if order[left] == *id {
            return Some(left as u64 + 1);
        }
    }
    None
}
