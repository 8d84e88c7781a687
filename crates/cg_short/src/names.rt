//! Names of replicas and of actions.

ghost use Rattle.cg_base.specs.Lists.{Each};
ghost use Rattle.cg_short.specs.Short.{IsShort, IsShortId, IsShortMember};

use cg_base::{ActionId, IdRuns, IdSet, ReplicaId, WeightSet};

pub fn number_is_short(n: u64)
    ensures { IsShort n }
{}

pub fn byte_is_short(n: u8)
    ensures { IsShort n }
{}

pub fn replica_is_short(p: ReplicaId)
    ensures { IsShort p }
{
    p.holds();
}

pub fn id_is_short(id: ActionId)
    ensures { IsShortId id }
{
    replica_is_short(id.creator);
    number_is_short(id.index);
}

pub fn ids_are_short(ids: &[ActionId])
    ensures { Each IsShortId ids.now }
{
    for id in ids {
        id_is_short(*id);
    }
}

pub fn runs_are_short(ids: &IdRuns)
    ensures { Each IsShortId ids.now }
{
    ids.creators_fit();
    ids.indexes_fit();
}

pub fn set_is_short(set: IdSet)
    ensures { Each IsShort set }
{
    set.holds();
}

pub fn weights_are_short(set: WeightSet)
    ensures { Each IsShortMember set }
{
    set.holds();
}
