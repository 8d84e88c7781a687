//! A place in a plan: at a part, behind some of its items.

ghost use Rattle.std.specs.Prelude.{◌≡◌, ◌+◌, ◌<◌, ◌≤◌, length, drop, slice_get};
ghost use Rattle.cg_plan.specs.Items.{items_of_plan};
ghost use Rattle.cg_plan.specs.Place.{IsPlace, items_before};
ghost use Rattle.cg_plan.specs.Progress.{turn_of};

use crate::{Part, SentItem, SentPart};
use cg_base::ReplicaId;

fn parts_from(turns: &[SentPart], current: usize) -> &[SentPart]
    requires { current ≤ length turns.now }
    ensures { result.now ≡ drop current turns.now }
{
    &turns[current..]
}

// the item at the place
pub(crate) fn item_at(turns: &[SentPart], current: usize, made: u64) -> Option<SentItem>
    requires { IsPlace turns.now current made }
    ensures { result ≡ slice_get (items_of_plan turns.now) (items_before turns.now current made) }
{
    match parts_from(turns, current) {
        [] => None,
        [turn, ..] => Some(SentItem {
            sender: turn.sender,
            item: turn.part.item(made),
        }),
    }
}

// the part that begins at the place, where the given replica sends it
pub(crate) fn part_at(turns: &[SentPart], current: usize, made: u64, me: ReplicaId) -> Option<Part>
    requires { IsPlace turns.now current made }
    ensures { result ≡ turn_of turns.now me (items_before turns.now current made) }
{
    match parts_from(turns, current) {
        [] => None,
        [turn, ..] => {
            if made == 0 && turn.sender.get() == me.get() {
                Some(turn.part)
            } else {
                None
            }
        }
    }
}

// the place behind the next item
pub(crate) fn place_after(turns: &[SentPart], current: usize, made: u64) -> (usize, u64)
    requires place { IsPlace turns.now current made }
    requires more { current < length turns.now }
    ensures place { IsPlace turns.now result.0 result.1 }
    ensures one { items_before turns.now result.0 result.1 ≡ items_before turns.now current made + 1 }
{
    match parts_from(turns, current) {
        [] => (current, made),
        [turn, ..] => {
            if made < turn.part.size() - 1 {
                (current, made + 1)
            } else {
                (current + 1, 0)
            }
        }
    }
}
