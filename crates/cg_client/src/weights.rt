ghost use Rattle.std.specs.Prelude.{◌≡◌};
ghost use Rattle.cg_client.specs.Weighing.{weighted};

use crate::checked_servers::CheckedServers;
use cg_base::{IdSet, WeightSet};

/// The members of an attempt, each with the weight that it has as a server, and 1 where it is none.
pub fn weigh(members: &CheckedServers, set: &IdSet) -> WeightSet
    ensures { result ≡ weighted members.now set.now }
{
    set.holds();
    let mut weighted = WeightSet::empty();
    for id in set.iter() {
        weighted.put(id, members.weight(id).max(1));
    }
    weighted
}
