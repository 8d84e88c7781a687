//! Lists of names in which none stands twice.
ghost use Rattle.std.specs.Prelude.{◌≡◌};
ghost use Rattle.cg_base.specs.Ids.{has_name};
ghost use Rattle.cg_queue.specs.Distinct.{is_distinct};

use cg_base::{ActionId, Cut};

/// Each name stands in the list once.
pub fn is_distinct(ids: &[ActionId]) -> bool
    ensures { result ≡ is_distinct ids.now }
{
    // a name behind all of its creator before it is new: only another is looked for
    let mut last = Cut::zero();
    for (i, id) in ids.iter().enumerate() {
        last.holds();
        if id.index <= last.get(id.creator) && has_name(&ids[..i], id) {
            return false;
        }
        last.raise(id.creator, id.index);
    }
    true
}

fn has_name(ids: &[ActionId], id: &ActionId) -> bool
    ensures { result ≡ has_name ids.now id.now }
{
    ids.iter().any(|other| *id == *other)
}
