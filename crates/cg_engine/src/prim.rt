//! A replica in a primary component.
ghost use Rattle.std.specs.Prelude.{◌≡◌, IfOk};
ghost use Rattle.cg_action.specs.Limits.{IsKind};
ghost use Rattle.cg_client.specs.Queries.{state_name};
ghost use Rattle.cg_client.specs.Requests.{is_creating, request, settle};
ghost use Rattle.cg_client.specs.Calls.{kind_of, IsLineGreen};
ghost use Rattle.cg_prim.specs.Steps.{turn_after};
ghost use Rattle.cg_states.specs.Hearing.{hear_delivery};
ghost use Rattle.cg_engine.specs.Seen.{prim_seen, turn_of, white_in};

use cg_base::NoMemory;
use cg_client::{Core, Draft, Request};
use cg_encoded::DeliveredMsg;
use cg_group::Delivery;
use cg_prim::{PrimStep, RegPrim, TransPrim};
use cg_report::StateName;

#[derive(Drop)]
pub(crate) enum InPrim {
    Reg(RegPrim),
    Trans(TransPrim),
}

pub(crate) fn hear(
    s: InPrim,
    draft: &mut Draft,
    d: &Delivery<DeliveredMsg>,
) -> Result<PrimStep, NoMemory>
    ensures { IfOk result (λ step. turn_after step draft.new ≡ hear_delivery (turn_of (prim_seen s) draft.old) d.now) }
{
    match s {
        InPrim::Reg(s) => s.deliver(draft, d),
        InPrim::Trans(s) => s.deliver(draft, d),
    }
}

pub(crate) fn request(s: InPrim, draft: &mut Draft, r: Request) -> Result<InPrim, NoMemory>
    requires { IsKind (kind_of r) }
    ensures { IfOk result (λ next. turn_of (prim_seen next) draft.new ≡
        request (turn_of (prim_seen s) draft.old) (kind_of r)) }
{
    match s {
        InPrim::Reg(s) => {
            let next = s.request(draft, r)?;
            Ok(InPrim::Reg(next))
        }
        InPrim::Trans(s) => {
            let next = s.request(r)?;
            Ok(InPrim::Trans(next))
        }
    }
}

pub(crate) fn settle(s: InPrim, draft: &mut Draft) -> Result<InPrim, NoMemory>
    ensures { IfOk result (λ next. turn_of (prim_seen next) draft.new ≡ settle (turn_of (prim_seen s) draft.old)) }
{
    match s {
        InPrim::Reg(s) => {
            let next = s.settle(draft)?;
            Ok(InPrim::Reg(next))
        }
        InPrim::Trans(s) => Ok(InPrim::Trans(s)),
    }
}

pub(crate) fn whiten(s: &mut InPrim)
    requires { IsLineGreen (prim_seen s.old).held }
    ensures { prim_seen s.new ≡ white_in (prim_seen s.old) }
{
    match s {
        InPrim::Reg(s) => s.whiten(),
        InPrim::Trans(s) => s.whiten(),
    }
}

pub(crate) fn name_of(s: &InPrim) -> StateName
    ensures { result ≡ state_name (prim_seen s.now).state }
{
    match s {
        InPrim::Reg(s) => s.name(),
        InPrim::Trans(s) => s.name(),
    }
}

pub(crate) fn is_creating(s: &InPrim) -> bool
    ensures { result ≡ is_creating (prim_seen s.now).state }
{
    match s {
        InPrim::Reg(_) => true,
        InPrim::Trans(_) => false,
    }
}

pub(crate) fn core_of(s: &InPrim) -> &Core
    ensures { result.now ≡ (prim_seen s.now).held }
{
    match s {
        InPrim::Reg(s) => s.core(),
        InPrim::Trans(s) => s.core(),
    }
}
