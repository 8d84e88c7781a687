//! What the group does: partitions, merges, places, and what is handed out.
ghost use Rattle.cg_schedule.specs.declared.event.Event.TheVariants.{Split, Merge, Order, Gather, Receive, Deliver};
ghost use Rattle.cg_model.specs.Standing.{IsBooked};
ghost use Rattle.cg_world_events.specs.StepInProgress.{IsQuiet};
ghost use Rattle.cg_world_events.specs.Happening.{Happens};

use crate::StepInProgress;
use crate::admission::{admit, merge_refused, split_refused, unknown};
use cg_base::{IdSet, ReplicaId};
use cg_group::{GroupErr, Handed};

// These replicas leave their configuration together.
#[tactic(auto, unfolding(cg_model::specs::Admission::first_refusal, cg_model::specs::Step::happens))]
pub(crate) fn split(going: &mut StepInProgress, set: IdSet) -> Result<(), GroupErr>
    requires quiet { IsQuiet going.old }
    requires booked { IsBooked going.old.world }
    ensures { Happens going.old (Split set) going.new result }
{
    set.holds();
    admit(split_refused(&going.state, &set))?;
    let handed = going.state.group.split(set)?;
    going.hand_out(handed)?;
    Ok(())
}

// A new configuration of these replicas is made.
#[tactic(auto, unfolding(cg_model::specs::Admission::first_refusal, cg_model::specs::Step::happens))]
pub(crate) fn merge(going: &mut StepInProgress, set: IdSet) -> Result<(), GroupErr>
    requires quiet { IsQuiet going.old }
    requires booked { IsBooked going.old.world }
    ensures { Happens going.old (Merge set) going.new result }
{
    set.holds();
    if let Some(reason) = merge_refused(&going.state, &set) {
        return Err(GroupErr::Refused(reason));
    }
    let left = going.state.left_replicas();
    let handed = going.state.group.merge(set, left)?;
    going.hand_out(handed)?;
    Ok(())
}

// The next places are handed to a replica.
#[tactic(auto, unfolding(cg_model::specs::Admission::first_refusal, cg_model::specs::Step::happens))]
pub(crate) fn deliver(going: &mut StepInProgress, p: ReplicaId, count: u64) -> Result<(), GroupErr>
    requires quiet { IsQuiet going.old }
    requires booked { IsBooked going.old.world }
    ensures { Happens going.old (Deliver p count) going.new result }
{
    admit(unknown(&going.state, p))?;
    let list = going.state.group.deliver(p, count)?;
    going.deliver(Handed { to: p, list })?;
    Ok(())
}

// The oldest message of a replica is ordered.
#[tactic(auto, unfolding(cg_model::specs::Admission::first_refusal, cg_model::specs::Step::happens))]
pub(crate) fn order(going: &mut StepInProgress, p: ReplicaId) -> Result<(), GroupErr>
    requires { IsQuiet going.old }
    ensures { Happens going.old (Order p) going.new result }
{
    admit(unknown(&going.state, p))?;
    let _place = going.state.group.order(p)?;
    Ok(())
}

// A replica receives a place of its configuration.
#[tactic(auto, unfolding(cg_model::specs::Admission::first_refusal, cg_model::specs::Step::happens))]
pub(crate) fn receive(going: &mut StepInProgress, p: ReplicaId, place: u64) -> Result<(), GroupErr>
    requires { IsQuiet going.old }
    ensures { Happens going.old (Receive p place) going.new result }
{
    admit(unknown(&going.state, p))?;
    going.state.group.receive(p, place)
}

// All messages are ordered and received.
#[tactic(auto, unfolding(cg_model::specs::Admission::first_refusal, cg_model::specs::Step::happens))]
pub(crate) fn gather(going: &mut StepInProgress) -> Result<(), GroupErr>
    requires { IsQuiet going.old }
    ensures { Happens going.old Gather going.new result }
{
    going.state.group.gather()?;
    Ok(())
}
