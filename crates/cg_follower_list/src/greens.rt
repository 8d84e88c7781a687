//! The greens that a follower takes.

ghost use Rattle.std.specs.Prelude.{◌≡◌, ◌-◌, ◌<◌, ◌++◌, ℕ, suc, take, drop, IfOk, OnOk};
ghost use Rattle.cg_follower_list.specs.Followers.{next_greens};

use cg_action::ActionList;
use cg_base::{NoMemory, Row};
use cg_queue::Queue;
use std::alloc::Global;

/// The queue's next greens behind a cursor, so many or all that are left where these are fewer. No other one is looked
/// at.
pub(crate) fn next_greens(
    alloc: Global,
    q: &Queue,
    cursor: u64,
    count: u64,
) -> Result<ActionList, NoMemory>
    ensures { IfOk result (λ list. list ≡ next_greens q.now cursor count) }
{
    let before = cursor.max(q.white_count());
    let end = q.green_count().min(before.saturating_add(count));
    let mut list = Row::new(alloc);
    for place in before..end {
        push_green(alloc, q, place + 1, &mut list)?;
    }
    Ok(list)
}

// a copy of the green at a place, where there is one, behind those that are listed
fn push_green(alloc: Global, q: &Queue, at: u64, list: &mut ActionList) -> Result<(), NoMemory>
    requires { q.now.white < at }
    ensures { OnOk result ((more : ℕ) → list.new ++ take more (drop (at - q.now.white) q.now.greens) ≡
        list.old ++ take (suc more) (drop (at - suc q.now.white) q.now.greens)) }
{
    match q.green_at(at) {
        Some(action) => {
            let copy = action.copy(alloc)?;
            list.push(copy)
        }
        None => Ok(()),
    }
}
