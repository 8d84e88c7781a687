//! A replica outside of a primary component, or in an exchange.
ghost use Rattle.std.specs.Prelude.{◌≡◌, IfOk};
ghost use Rattle.cg_action.specs.Limits.{IsKind};
ghost use Rattle.cg_client.specs.Queries.{state_name};
ghost use Rattle.cg_client.specs.Requests.{is_creating, request, settle};
ghost use Rattle.cg_client.specs.Calls.{kind_of, IsLineGreen};
ghost use Rattle.cg_exchange.specs.Steps.{turn_after, HasRecord};
ghost use Rattle.cg_states.specs.Hearing.{hear_delivery};
ghost use Rattle.cg_engine.specs.Seen.{outside_seen, turn_of, white_in};

use cg_base::NoMemory;
use cg_client::{Core, Draft, Request};
use cg_encoded::DeliveredMsg;
use cg_exchange::{ExchangeActions, ExchangeStates, ExchangeStep, NonPrim};
use cg_group::Delivery;
use cg_report::StateName;

#[derive(Drop)]
pub(crate) enum OutOfPrim {
    Non(NonPrim),
    States(ExchangeStates),
    Actions(ExchangeActions),
}

pub(crate) fn hear(
    s: OutOfPrim,
    draft: &mut Draft,
    d: &Delivery<DeliveredMsg>,
) -> Result<ExchangeStep, NoMemory>
    ensures turn { IfOk result (λ step. turn_after step draft.new ≡
        hear_delivery (turn_of (outside_seen s) draft.old) d.now) }
    ensures record { IfOk result HasRecord }
{
    match s {
        OutOfPrim::Non(s) => s.deliver(draft, d),
        OutOfPrim::States(s) => s.deliver(draft, d),
        OutOfPrim::Actions(s) => s.deliver(draft, d),
    }
}

pub(crate) fn request(s: OutOfPrim, draft: &mut Draft, r: Request) -> Result<OutOfPrim, NoMemory>
    requires { IsKind (kind_of r) }
    ensures { IfOk result (λ next. turn_of (outside_seen next) draft.new ≡
        request (turn_of (outside_seen s) draft.old) (kind_of r)) }
{
    match s {
        OutOfPrim::Non(s) => {
            let next = s.request(draft, r)?;
            Ok(OutOfPrim::Non(next))
        }
        OutOfPrim::States(s) => {
            let next = s.request(r)?;
            Ok(OutOfPrim::States(next))
        }
        OutOfPrim::Actions(s) => {
            let next = s.request(r)?;
            Ok(OutOfPrim::Actions(next))
        }
    }
}

pub(crate) fn settle(s: OutOfPrim, draft: &mut Draft) -> Result<OutOfPrim, NoMemory>
    ensures { IfOk result (λ next. turn_of (outside_seen next) draft.new ≡
        settle (turn_of (outside_seen s) draft.old)) }
{
    match s {
        OutOfPrim::Non(s) => {
            let next = s.settle(draft)?;
            Ok(OutOfPrim::Non(next))
        }
        OutOfPrim::States(s) => Ok(OutOfPrim::States(s)),
        OutOfPrim::Actions(s) => Ok(OutOfPrim::Actions(s)),
    }
}

pub(crate) fn whiten(s: &mut OutOfPrim)
    requires { IsLineGreen (outside_seen s.old).held }
    ensures { outside_seen s.new ≡ white_in (outside_seen s.old) }
{
    match s {
        OutOfPrim::Non(s) => s.whiten(),
        OutOfPrim::States(s) => s.whiten(),
        OutOfPrim::Actions(s) => s.whiten(),
    }
}

pub(crate) fn name_of(s: &OutOfPrim) -> StateName
    ensures { result ≡ state_name (outside_seen s.now).state }
{
    match s {
        OutOfPrim::Non(s) => s.name(),
        OutOfPrim::States(s) => s.name(),
        OutOfPrim::Actions(s) => s.name(),
    }
}

pub(crate) fn is_creating(s: &OutOfPrim) -> bool
    ensures { result ≡ is_creating (outside_seen s.now).state }
{
    match s {
        OutOfPrim::Non(s) => s.is_regular(),
        _ => false,
    }
}

pub(crate) fn core_of(s: &OutOfPrim) -> &Core
    ensures { result.now ≡ (outside_seen s.now).held }
{
    match s {
        OutOfPrim::Non(s) => s.core(),
        OutOfPrim::States(s) => s.core(),
        OutOfPrim::Actions(s) => s.core(),
    }
}
