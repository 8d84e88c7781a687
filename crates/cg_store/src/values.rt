ghost use Rattle.std.specs.Prelude.{◌≡◌};
ghost use Rattle.cg_store.specs.Due.{same_stable, is_due};

use cg_client::Draft;
use cg_records::Stable;

/// The values that a record has at any time are the same.
fn same_values(old: &Stable, new: &Stable) -> bool
    ensures { result ≡ same_stable old.now new.now }
{
    old.prim == new.prim
        && old.attempt_index == new.attempt_index
        && old.vulnerable == new.vulnerable
        && old.yellow == new.yellow
}

/// Something that stands on the disk has changed, red marks of delivered actions apart.
pub(crate) fn is_due(old: &Stable, new: &Stable, draft: &Draft) -> bool
    ensures { result ≡ is_due old.now new.now draft.now }
{
    draft.marked_own()
        || !draft.green().is_empty()
        || !draft.made().is_empty()
        || !same_values(old, new)
}
