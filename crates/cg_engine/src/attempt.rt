//! A replica in an attempt to form a primary component.
ghost use Rattle.std.specs.Prelude.{◌≡◌, IfOk};
ghost use Rattle.cg_action.specs.Limits.{IsKind};
ghost use Rattle.cg_client.specs.declared.parts.DraftParts.{DraftParts};
ghost use Rattle.cg_client.specs.Queries.{state_name};
ghost use Rattle.cg_client.specs.Requests.{is_creating, request};
ghost use Rattle.cg_client.specs.Calls.{kind_of, IsLineGreen};
ghost use Rattle.cg_construct.specs.Steps.{turn_after, HasLimits};
ghost use Rattle.cg_states.specs.Hearing.{hear_delivery};
ghost use Rattle.cg_engine.specs.Seen.{attempt_seen, turn_of, white_in};

use cg_base::NoMemory;
use cg_client::{Core, Draft, Request};
use cg_construct::{Construct, ConstructStep, No, Un};
use cg_encoded::DeliveredMsg;
use cg_group::Delivery;
use cg_report::StateName;

#[derive(Drop)]
pub(crate) enum InAttempt {
    Construct(Construct),
    No(No),
    Un(Un),
}

pub(crate) fn hear(
    s: InAttempt,
    draft: &mut Draft,
    d: &Delivery<DeliveredMsg>,
) -> Result<ConstructStep, NoMemory>
    ensures turn { IfOk result (λ step. turn_after step draft.new ≡
        hear_delivery (turn_of (attempt_seen s) draft.old) d.now) }
    ensures limits { IfOk result HasLimits }
{
    match s {
        InAttempt::Construct(s) => s.deliver(draft, d),
        InAttempt::No(s) => s.deliver(draft, d),
        InAttempt::Un(s) => s.deliver(draft, d),
    }
}

pub(crate) fn request(s: InAttempt, r: Request) -> Result<InAttempt, NoMemory>
    requires { IsKind (kind_of r) }
    ensures { IfOk result (λ next. (draft : DraftParts) →
        turn_of (attempt_seen next) draft ≡ request (turn_of (attempt_seen s) draft) (kind_of r)) }
{
    match s {
        InAttempt::Construct(s) => {
            let next = s.request(r)?;
            Ok(InAttempt::Construct(next))
        }
        InAttempt::No(s) => {
            let next = s.request(r)?;
            Ok(InAttempt::No(next))
        }
        InAttempt::Un(s) => {
            let next = s.request(r)?;
            Ok(InAttempt::Un(next))
        }
    }
}

pub(crate) fn whiten(s: &mut InAttempt)
    requires { IsLineGreen (attempt_seen s.old).held }
    ensures { attempt_seen s.new ≡ white_in (attempt_seen s.old) }
{
    match s {
        InAttempt::Construct(s) => s.whiten(),
        InAttempt::No(s) => s.whiten(),
        InAttempt::Un(s) => s.whiten(),
    }
}

pub(crate) fn name_of(s: &InAttempt) -> StateName
    ensures { result ≡ state_name (attempt_seen s.now).state }
{
    match s {
        InAttempt::Construct(s) => s.name(),
        InAttempt::No(s) => s.name(),
        InAttempt::Un(s) => s.name(),
    }
}

pub(crate) fn is_creating(s: &InAttempt) -> bool
    ensures { result ≡ is_creating (attempt_seen s.now).state }
{
    match s {
        InAttempt::Construct(_) | InAttempt::No(_) | InAttempt::Un(_) => false,
    }
}

pub(crate) fn core_of(s: &InAttempt) -> &Core
    ensures { result.now ≡ (attempt_seen s.now).held }
{
    match s {
        InAttempt::Construct(s) => s.core(),
        InAttempt::No(s) => s.core(),
        InAttempt::Un(s) => s.core(),
    }
}
