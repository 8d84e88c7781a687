//! Why an event isn't admitted: the tests that the world makes itself, before those of its group.
ghost use Rattle.std.specs.Prelude.{◌≡◌, ◌∷◌, [], false, is_some, IfOk};
ghost use Rattle.cg_base.specs.Lists.{first_some};
ghost use Rattle.cg_group.specs.Refusals.{any_of, empty_set, not_up};
ghost use Rattle.cg_model.specs.Admission.{unknown, has_left, joiner_left, never_named, not_green, is_weighted, cannot_rise, takes_part};
ghost use Rattle.cg_model.specs.World.{replica_of};
ghost use Rattle.cg_model.specs.AdmissionCalls.{already_up, begun_already, id_used};
ghost use Rattle.cg_world_events.specs.Happening.{admits};

use crate::WorldState;
use cg_base::{IdSet, NoMemory, ReplicaId};
use cg_group::{GroupErr, Reason};

// Where there is a reason the event isn't admitted.
pub(crate) fn admit(reason: Option<Reason>) -> Result<(), GroupErr>
    ensures { result ≡ admits reason }
{
    match reason {
        Some(reason) => Err(GroupErr::Refused(reason)),
        None => Ok(()),
    }
}

// The first of these reasons that is there.
fn first_of(reasons: &[Option<Reason>]) -> Option<Reason>
    ensures { result ≡ first_some reasons.now }
{
    for reason in reasons {
        if let Some(reason) = reason {
            return Some(*reason);
        }
    }
    None
}

// The replica hasn't begun.
pub(crate) fn unknown(state: &WorldState, p: ReplicaId) -> Option<Reason>
    ensures { result ≡ unknown state.now p }
{
    (!state.has_begun(p)).then_some(Reason::UnknownReplica(p))
}

// The replica isn't up.
pub(crate) fn not_up(state: &WorldState, p: ReplicaId) -> Option<Reason>
    ensures { result ≡ not_up state.now.group p }
{
    (!state.group.is_up(p)).then_some(Reason::NotUp(p))
}

// The replica has left for good.
pub(crate) fn has_left(state: &WorldState, p: ReplicaId) -> Option<Reason>
    ensures { result ≡ has_left state.now p }
{
    state.is_left(p).then_some(Reason::HasLeft(p))
}

// The replica is up.
pub(crate) fn already_up(state: &WorldState, p: ReplicaId) -> Option<Reason>
    ensures { result ≡ already_up state.now p }
{
    state.is_up(p).then_some(Reason::AlreadyUp(p))
}

// Start or an admitted join has named the replica.
pub(crate) fn id_used(state: &WorldState, p: ReplicaId) -> Option<Reason>
    ensures { result ≡ id_used state.now p }
{
    state.names(p).then_some(Reason::IdUsed(p))
}

// Neither start nor an admitted join has named the replica.
pub(crate) fn never_named(state: &WorldState, p: ReplicaId) -> Option<Reason>
    ensures { result ≡ never_named state.now p }
{
    (!state.names(p)).then_some(Reason::UnknownReplica(p))
}

// Why the replica shows nothing.
pub(crate) fn hidden(state: &WorldState, p: ReplicaId) -> Option<Reason>
    ensures { result ≡ first_some (unknown state.now p ∷ not_up state.now.group p ∷ []) }
{
    first_of(&[unknown(state, p), not_up(state, p)])
}

// Why the replica can't take part in an event as itself.
pub(crate) fn takes_part(state: &WorldState, p: ReplicaId) -> Option<Reason>
    ensures { result ≡ takes_part state.now p }
{
    first_of(&[unknown(state, p), not_up(state, p), has_left(state, p)])
}

// Why the replica can't come up again.
pub(crate) fn cannot_rise(state: &WorldState, p: ReplicaId) -> Option<Reason>
    ensures { result ≡ cannot_rise state.now p }
{
    first_of(&[unknown(state, p), already_up(state, p)])
}

// A weight above 1 stands on the disk of a replica that is down.
pub(crate) fn is_weighted(state: &WorldState, p: ReplicaId) -> Result<Option<Reason>, NoMemory>
    requires { is_some (replica_of state.now p) ≡ false }
    ensures { IfOk result (λ reason. reason ≡ is_weighted state.now p) }
{
    let weighted = state.has_weights(p)?;
    Ok(weighted.then_some(Reason::Weighted(p)))
}

// Why the replica can't create the join of a new server.
pub(crate) fn join_refused(state: &WorldState, p: ReplicaId, joiner: ReplicaId) -> Option<Reason>
    ensures { result ≡ first_some (takes_part state.now p ∷ id_used state.now joiner ∷ []) }
{
    first_of(&[takes_part(state, p), id_used(state, joiner)])
}

// Why the replica can't create the leave of a server.
pub(crate) fn leave_refused(state: &WorldState, p: ReplicaId, server: ReplicaId) -> Option<Reason>
    ensures { result ≡ first_some (takes_part state.now p ∷ never_named state.now server ∷ []) }
{
    first_of(&[takes_part(state, p), never_named(state, server)])
}

// The replica has begun.
fn begun_already(state: &WorldState, p: ReplicaId) -> Option<Reason>
    ensures { result ≡ begun_already state.now p }
{
    state.has_begun(p).then_some(Reason::AlreadyUp(p))
}

// The joiner has left, as its representative knows.
fn joiner_left(state: &WorldState, p: ReplicaId, joiner: ReplicaId) -> Option<Reason>
    ensures { result ≡ joiner_left state.now p joiner }
{
    state
        .knows_left(p, joiner)
        .then_some(Reason::HasLeft(joiner))
}

// The joiner is no server, as its representative knows.
fn not_green(state: &WorldState, p: ReplicaId, joiner: ReplicaId) -> Option<Reason>
    ensures { result ≡ not_green state.now p joiner }
{
    (!state.knows_server(p, joiner)).then_some(Reason::JoinNotGreen(joiner))
}

// Why the replica can't be the joiner's representative.
pub(crate) fn transfer_refused(
    state: &WorldState,
    p: ReplicaId,
    joiner: ReplicaId,
) -> Option<Reason>
    ensures { result ≡ first_some (takes_part state.now p ∷ never_named state.now joiner
        ∷ begun_already state.now joiner ∷ joiner_left state.now p joiner ∷ not_green state.now p joiner ∷ []) }
{
    first_of(&[
        takes_part(state, p),
        never_named(state, joiner),
        begun_already(state, joiner),
        joiner_left(state, p, joiner),
        not_green(state, p, joiner),
    ])
}

// No replica is named.
pub(crate) fn empty_set(set: &IdSet) -> Option<Reason>
    ensures { result ≡ empty_set set.now }
{
    set.least().is_none().then_some(Reason::EmptySet)
}

// The first of the replicas that hasn't begun.
fn first_unknown(state: &WorldState, set: &IdSet) -> Option<Reason>
    ensures { result ≡ any_of (unknown state.now) set.now }
{
    for p in set.iter() {
        if !state.has_begun(p) {
            return Some(Reason::UnknownReplica(p));
        }
    }
    None
}

// The first of the replicas that isn't up.
fn first_down(state: &WorldState, set: &IdSet) -> Option<Reason>
    ensures { result ≡ any_of (not_up state.now.group) set.now }
{
    for p in set.iter() {
        if !state.group.is_up(p) {
            return Some(Reason::NotUp(p));
        }
    }
    None
}

// The first of the replicas that has left for good.
fn first_left(state: &WorldState, set: &IdSet) -> Option<Reason>
    ensures { result ≡ any_of (has_left state.now) set.now }
{
    for p in set.iter() {
        if state.is_left(p) {
            return Some(Reason::HasLeft(p));
        }
    }
    None
}

// Why the replicas can't leave their configuration together, as far as the group doesn't say.
pub(crate) fn split_refused(state: &WorldState, set: &IdSet) -> Option<Reason>
    ensures { result ≡ first_some (empty_set set.now ∷ any_of (unknown state.now) set.now ∷ []) }
{
    first_of(&[empty_set(set), first_unknown(state, set)])
}

// Why the replicas can't be the members of a new configuration, as far as the group doesn't say.
pub(crate) fn merge_refused(state: &WorldState, set: &IdSet) -> Option<Reason>
    ensures { result ≡ first_some (empty_set set.now ∷ any_of (unknown state.now) set.now
        ∷ any_of (not_up state.now.group) set.now ∷ any_of (has_left state.now) set.now ∷ []) }
{
    first_of(&[
        empty_set(set),
        first_unknown(state, set),
        first_down(state, set),
        first_left(state, set),
    ])
}
