//! What clients ask replicas to create: updates, joins and leaves.
ghost use Rattle.std.specs.Prelude.{◌≡◌, IfOk};
ghost use Rattle.cg_action.specs.Limits.{IsKind, IsUpdate};
ghost use Rattle.cg_action.specs.declared.action.Kind.TheVariants.{Join as JoinKind, Leave as LeaveKind, Update};
ghost use Rattle.cg_client.specs.Calls.{kind_of};
ghost use Rattle.cg_schedule.specs.declared.event.Event.TheVariants.{Request as Requested, Join, Leave};
ghost use Rattle.cg_model.specs.Standing.{IsBooked};
ghost use Rattle.cg_world_events.specs.StepInProgress.{IsQuiet};
ghost use Rattle.cg_world_events.specs.Happening.{Happens};

use crate::StepInProgress;
use crate::admission::{admit, join_refused, leave_refused, takes_part};
use cg_action::{CmdList, Query, copy_commands, copy_query};
use cg_base::{NoMemory, ReplicaId};
use cg_client::Request;
use cg_group::GroupErr;
use std::alloc::Global;

// A client asks the replica to run commands, and then to answer the query.
#[tactic(auto, unfolding(cg_model::specs::Admission::first_refusal, cg_model::specs::Step::happens))]
pub(crate) fn request(
    alloc: Global,
    going: &mut StepInProgress,
    p: ReplicaId,
    cmds: &CmdList,
    query: &Option<Query>,
) -> Result<(), GroupErr>
    requires quiet { IsQuiet going.old }
    requires limits { IsUpdate cmds.now query.now }
    requires booked { IsBooked going.old.world }
    ensures { Happens going.old (Requested p cmds.now query.now) going.new result }
{
    admit(takes_part(&going.state, p))?;
    let request = copied(alloc, cmds, query)?;
    going.ask(p, request)?;
    Ok(())
}

// What the client asks for.
fn copied(alloc: Global, cmds: &CmdList, query: &Option<Query>) -> Result<Request, NoMemory>
    ensures { IfOk result (λ r. kind_of r ≡ Update cmds.now query.now) }
{
    let cmds = copy_commands(alloc, cmds.as_slice())?;
    let query = copy_query(alloc, query)?;
    Ok(Request::Update { cmds, query })
}

// The replica creates the join of a new server, which is named by that.
#[tactic(auto, unfolding(cg_model::specs::Admission::first_refusal, cg_model::specs::Step::happens))]
pub(crate) fn join(
    going: &mut StepInProgress,
    p: ReplicaId,
    joiner: ReplicaId,
    weight: u8,
) -> Result<(), GroupErr>
    requires quiet { IsQuiet going.old }
    requires limits { IsKind (JoinKind joiner weight) }
    requires booked { IsBooked going.old.world }
    ensures { Happens going.old (Join p joiner weight) going.new result }
{
    admit(join_refused(&going.state, p, joiner))?;
    going.state.named.add(joiner);
    going.ask(p, Request::Join(joiner, weight))?;
    Ok(())
}

// The replica creates the leave of a server.
#[tactic(auto, unfolding(cg_model::specs::Admission::first_refusal, cg_model::specs::Step::happens))]
pub(crate) fn leave(
    going: &mut StepInProgress,
    p: ReplicaId,
    server: ReplicaId,
) -> Result<(), GroupErr>
    requires quiet { IsQuiet going.old }
    requires limits { IsKind (LeaveKind server) }
    requires booked { IsBooked going.old.world }
    ensures { Happens going.old (Leave p server) going.new result }
{
    admit(leave_refused(&going.state, p, server))?;
    going.ask(p, Request::Leave(server))?;
    Ok(())
}
