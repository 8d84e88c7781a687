//! The attempt that a replica's record tells of.
ghost use Rattle.std.specs.Prelude.{◌≡◌, ℕ, Some, option_map};
ghost use Rattle.cg_construct.specs.Attempt.{attempt_of};
ghost use Rattle.cg_states.specs.Construct.{attempt_set, is_announced};

use cg_base::{IdSet, ReplicaId};
use cg_client::Core;

/// The members of the attempt.
pub(crate) fn attempt_set(core: &Core) -> IdSet
    ensures { result ≡ attempt_set core.now }
{
    match core.vulnerable() {
        Some(v) => v.set,
        None => IdSet::empty(),
    }
}

/// The members of the attempt that the record tells of.
pub(crate) fn set_of_attempt(core: &Core) -> IdSet
    ensures { (conf : ℕ) → attempt_of core.now ≡ Some conf → option_map (λ v. v.set) core.now.vulnerable ≡ Some result }
{
    match core.vulnerable() {
        Some(v) => v.set,
        None => IdSet::empty(),
    }
}

/// The announcement is its sender's, of this configuration, by a member of the attempt.
pub(crate) fn is_announced(
    core: &Core,
    conf: u64,
    from: ReplicaId,
    id: ReplicaId,
    of_conf: u64,
) -> bool
    ensures { result ≡ is_announced core.now conf from id of_conf }
{
    id.get() == from.get() && of_conf == conf && attempt_set(core).contains(from)
}
